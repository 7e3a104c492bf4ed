//! What is kept of a host at first.

ghost use Rattle.std.specs.Prelude.{◌≡◌, [], ◌∷◌, IfOk, IfErr};
ghost use Rattle.law_network.specs.Log.{no_packets, fresh_channels};
ghost use Rattle.law_network.specs.Network.{fresh_end};
ghost use Rattle.law_network.specs.World.{joined_end};
ghost use Rattle.enet_site.specs.RecordsPrivate.Records.{first_numbers};

use crate::end::{Channel, End};
use crate::records::Records;
use enet_codec::{PeerRef, Refusal};
use std::alloc::Global;

/// The peer that a host has from the start, of connection 0.
const FIRST_PEER: PeerRef = PeerRef {
    slot: 0,
    generation: 0,
};

/// What is kept of a channel on which nothing has happened.
fn no_packets(alloc: Global) -> Channel
    ensures { result ≡ no_packets }
{
    Channel {
        submitted: Vec::new(alloc),
        taken: Vec::new(alloc),
    }
}

/// What is kept of each channel number at first.
fn fresh_channels(alloc: Global) -> Result<Vec<Channel>, Refusal>
    ensures memory { IfErr result (λ why. why ≡ Refusal.Memory) }
    ensures fresh { IfOk result (λ all. all.items ≡ fresh_channels) }
{
    let Ok(mut all) = Vec::with_capacity(alloc, 256) else {
        return Err(Refusal::Memory);
    };
    for _channel in 0..256u16 {
        all.push_reserved(no_packets(alloc));
    }
    Ok(all)
}

/// The numbers sent at first: this one on channel 0xFF, 0 on all others.
fn first_numbers(alloc: Global, control: u128) -> Result<Vec<u128>, Refusal>
    ensures memory { IfErr result (λ why. why ≡ Refusal.Memory) }
    ensures first { IfOk result (λ all. all.items ≡ first_numbers control) }
{
    let Ok(mut all) = Vec::with_capacity(alloc, 256) else {
        return Err(Refusal::Memory);
    };
    for _channel in 0..255u8 {
        all.push_reserved(0);
    }
    all.push_reserved(control);
    Ok(all)
}

/// An end of this connection at which nothing has happened, to the peer of this name. E1 where memory is refused.
pub fn fresh_end(alloc: Global, connection: u64, name: PeerRef) -> Result<End, Refusal>
    ensures memory { IfErr result (λ why. why ≡ Refusal.Memory) }
    ensures fresh { IfOk result (λ end. end ≡ fresh_end connection name) }
{
    Ok(End {
        connection,
        name,
        mtu: 0,
        greatest: first_numbers(alloc, 0)?,
        channels: fresh_channels(alloc)?,
        events: Vec::new(alloc),
    })
}

/// An end of connection 0, which stands from the start: number 1 of channel 0xFF counts as sent.
fn joined_end(alloc: Global) -> Result<End, Refusal>
    ensures memory { IfErr result (λ why. why ≡ Refusal.Memory) }
    ensures fresh { IfOk result (λ end. end ≡ joined_end) }
{
    Ok(End {
        connection: 0,
        name: FIRST_PEER,
        mtu: 0,
        greatest: first_numbers(alloc, 1)?,
        channels: fresh_channels(alloc)?,
        events: Vec::new(alloc),
    })
}

impl Records {
    /// What is kept of a host to which nothing has happened.
    pub fn open(alloc: Global) -> Records
        ensures { result ≡ record { log = []; ends = [] } }
    {
        Records {
            log: Vec::new(alloc),
            ends: Vec::new(alloc),
        }
    }

    /// What is kept of a host that has connection 0 from the start. E1 where memory is refused.
    pub fn joined(alloc: Global) -> Result<Records, Refusal>
        ensures memory { IfErr result (λ why. why ≡ Refusal.Memory) }
        ensures fresh { IfOk result (λ r. r ≡ record { log = []; ends = joined_end ∷ [] }) }
    {
        let Ok(mut ends) = Vec::with_capacity(alloc, 1) else {
            return Err(Refusal::Memory);
        };
        ends.push_reserved(joined_end(alloc)?);
        Ok(Records {
            log: Vec::new(alloc),
            ends,
        })
    }
}
