//! What a host tells of what is to come.

ghost use Rattle.std.specs.Prelude.{◌≡◌, ◌<◌, IfSome, IfNone};
ghost use Rattle.std.specs.Option.{option_copied};
ghost use Rattle.enet_host.specs.Turns.{IsFirst, HoldsNowhere};
ghost use Rattle.enet_slot.specs.Calls.{tells};
ghost use Rattle.enet_host.specs.Ticking.{IsDueIn};
ghost use Rattle.enet_host.specs.Opening.{host_basis};
ghost use Rattle.enet_host.specs.Foretelling.{guest_name, next_name, teller_of, packet_of, body_of, Foretells, IsTeller};

use crate::events::{name_at, packet_of, teller};
use crate::host::HostCore;
use crate::receiving::seat;
use crate::ticking::SHARING_INTERVAL;
use bytes::Bytes;
use enet_codec::{Addr, Packet, PeerRef};
use enet_rtt::elapsed;

impl HostCore {
    /// The name that the next peer gets: that of the lowest slot that is free and has a generation left. None where there is
    /// no such slot.
    pub fn next_peer(&self) -> Option<PeerRef>
        ensures { result ≡ next_name self.now.config self.now.slots }
    {
        let place = self
            .sleepers
            .first_available(&self.slots, self.start.config.generations)?;
        Some(name_at(&self.slots, place as u16))
    }

    /// The name that the peer gets which answers the next CONNECT, if that comes from this address: that of `next_peer`, or the next one of
    /// the slot whose peer gives way, where none is free and the host lets peers give way, or as many peers of the address are there as may
    /// be. None where neither is there.
    pub fn next_guest(&mut self, from: Addr) -> Option<PeerRef>
        ensures guest { result ≡ guest_name (host_basis self.old) from self.old.slots }
        ensures same { self.new ≡ self.old }
    {
        let free = self
            .sleepers
            .first_available(&self.slots, self.start.config.generations);
        let place = seat(
            &self.slots,
            &self.seats,
            &mut self.unproved,
            &self.start,
            from,
            free,
        )?;
        Some(PeerRef {
            slot: place as u16,
            generation: self.slots[place].next_generation(),
        })
    }

    /// In how many milliseconds time brings the host anything, at most 1,000: a tick of fewer changes its clock alone, and one of
    /// as many lets something go again, pings or ends a peer, or shares the bandwidth out. So a caller that has put out all that
    /// is to be sent may sleep so long, unless a datagram comes.
    pub fn due_in(&self) -> u32
        ensures { IsDueIn self.now result }
    {
        let clock = self.start.clock;
        let peers = self.sleepers.due_in(&self.slots, clock);
        peers.min(SHARING_INTERVAL.saturating_sub(elapsed(clock, self.shared_at)))
    }

    /// The slot whose event `next_event` would give.
    pub(crate) fn next_teller(&self) -> Option<u16>
        ensures first { IfSome result (λ i. IsFirst tells self.now.slots self.now.event_from i) }
        ensures none { IfNone result (HoldsNowhere tells self.now.slots) }
        ensures within { IfSome result (λ i. i < self.now.config.peers) }
    {
        teller(
            &self.slots,
            &self.sleepers,
            self.start.config.peers,
            self.event_from,
        )
    }

    /// The peer whose event `next_event` would give; None where there is none.
    pub fn next_event_of(&self) -> Option<PeerRef>
        ensures first { IfSome result (λ name. IsTeller self.now name) }
        ensures none { IfNone result (HoldsNowhere tells self.now.slots) }
        ensures foretells { Foretells teller_of self.now result }
    {
        let slot = self.next_teller()?;
        Some(name_at(&self.slots, slot))
    }

    /// The packet that `next_event` would hand out; None where that would be no packet.
    pub fn next_packet(&self) -> Option<&Packet>
        ensures { Foretells packet_of self.now (option_copied result) }
    {
        let Some(slot) = self.next_teller() else {
            return None;
        };
        packet_of(&self.slots, slot)
    }

    /// The body of the packet that `next_event` would hand out; None where that would be no packet.
    pub fn next_body(&self) -> Option<&Bytes>
        ensures { Foretells body_of self.now (option_copied result) }
    {
        let Some(packet) = self.next_packet() else {
            return None;
        };
        Some(&packet.body)
    }
}
