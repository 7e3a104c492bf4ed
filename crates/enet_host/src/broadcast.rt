//! Packets that are submitted to several peers.

ghost use Rattle.std.specs.Prelude.{◌≡◌, ◌∷◌, []};
ghost use Rattle.enet_codec.specs.Outward.{errands, errands_for};
ghost use Rattle.enet_host.specs.Host.{KeepsRest};
ghost use Rattle.enet_host.specs.Broadcast.{CarriesOut, SubmitsEach, first_told, is_told};

use crate::host::HostCore;
use enet_codec::{Outward, PeerRef, Refusal};

impl HostCore {
    /// Submits each of these packets to each of these peers but the one that it excepts: all packets to the first peer, then all to
    /// the second, and so on, each as by `submit`. A submission that is refused changes nothing, and the others go on. The answer is the
    /// first refusal but E2 and E3, which say that a peer has gone or isn't connected: E4, E5, E9 or E1.
    pub fn submit_each(&mut self, peers: &[PeerRef], packets: &[Outward]) -> Result<(), Refusal>
        ensures submits { SubmitsEach self.old.send_limit (errands peers.now packets.now) result self.old.slots self.new.slots }
        ensures rest { KeepsRest self.old self.new }
    {
        let mut told = Ok(());
        for peer in peers {
            told = told.and(self.submit_all(*peer, packets));
        }
        told
    }

    /// Submits to one peer those of the packets that it gets.
    fn submit_all(&mut self, peer: PeerRef, packets: &[Outward]) -> Result<(), Refusal>
        ensures submits { SubmitsEach self.old.send_limit (errands_for packets.now peer) result self.old.slots self.new.slots }
        ensures rest { KeepsRest self.old self.new }
    {
        let mut told = Ok(());
        for packet in packets {
            told = told.and(self.submit_one(peer, packet));
        }
        told
    }

    /// Submits a packet to a peer, if that gets it.
    #[inline(always)]
    fn submit_one(&mut self, peer: PeerRef, packet: &Outward) -> Result<(), Refusal>
        ensures submits { SubmitsEach self.old.send_limit (errands_for (packet.now ∷ []) peer) result self.old.slots self.new.slots }
        ensures rest { KeepsRest self.old self.new }
    {
        if !packet.goes_to(peer) {
            return Ok(());
        }
        told_of(self.submit_shared(peer, packet))
    }

    /// Submits a packet to a peer, which shares its body.
    #[inline(always)]
    fn submit_shared(&mut self, peer: PeerRef, packet: &Outward) -> Result<(), Refusal>
        ensures submits { CarriesOut self.old.send_limit (record { peer = peer; packet = packet.now }) result self.old.slots self.new.slots }
        ensures rest { KeepsRest self.old self.new }
    {
        let Ok(body) = packet.body.clone() else {
            let refusal = self.submission_refusal(peer, packet.channel, packet.body.len());
            return Err(refusal.unwrap_or(Refusal::Memory));
        };
        match self.submit(peer, packet.channel, packet.flags, body) {
            Ok(()) => Ok(()),
            Err((why, _body)) => Err(why),
        }
    }
}

/// What is told of the answer to one submission of several.
#[inline(always)]
fn told_of(answer: Result<(), Refusal>) -> Result<(), Refusal>
    ensures { result ≡ first_told (answer ∷ []) }
{
    match answer {
        Ok(()) => Ok(()),
        Err(why) => {
            if is_told(why) {
                return Err(why);
            }
            Ok(())
        }
    }
}

/// Whether a refusal is told: not where the peer has gone or isn't connected.
#[inline(always)]
fn is_told(why: Refusal) -> bool
    ensures { result ≡ is_told why }
{
    !matches!(why, Refusal::NoSuchPeer | Refusal::NotConnected)
}
