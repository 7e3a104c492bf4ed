//! A packet in memory of its own.

ghost use Rattle.std.specs.Prelude.{◌≡◌, IsTrue, IfOk, OnErr, IfErr, length, None};
ghost use Rattle.std.specs.Option.{IfSome};
ghost use Rattle.enet_fragment.specs.PartialPacket.{belongs, piece_at, with_piece};
ghost use Rattle.enet_fragment.specs.Whole.{is_whole};

use crate::IncomingPacket;
use enet_codec::Refusal;
use enet_fragment::Place;
use std::alloc::Global;
use std::marker::Model;

/// A packet in memory of its own, so that a place that a map keeps free costs a pointer and not a packet. Contracts see the
/// packet.
#[derive(Drop)]
pub(crate) struct BoxedPacket {
    inner: Box<IncomingPacket>,
}

impl Model for BoxedPacket {
    ghost use Rattle.enet_packets.specs.Codes.{coming_code};
    ghost use Rattle.enet_packets.specs.declared.incoming_packet.IncomingPacket.{IncomingPacket};

    ghost Value = { IncomingPacket };

    ghost coded = { coming_code };

    ghost view = { λ b. b.inner.value };
}

impl BoxedPacket {
    /// The packet in memory of its own, where that is not refused.
    pub(crate) fn new(alloc: Global, packet: IncomingPacket) -> Option<BoxedPacket>
        ensures { IfSome result (λ b. b ≡ packet) }
    {
        match Box::new(alloc, packet) {
            Ok(inner) => Some(BoxedPacket { inner }),
            Err(_) => None,
        }
    }

    /// The packet.
    pub(crate) fn packet(&self) -> &IncomingPacket
        ensures { result.now ≡ self.now }
    {
        &self.inner
    }

    /// Adds a piece that belongs to the packet and is missing in it. Answers whether the packet is whole then.
    /// `Refusal::Memory` changes nothing.
    pub(crate) fn add(&mut self, place: Place, bytes: &[u8]) -> Result<bool, Refusal>
        requires fits { place.len ≡ length bytes.now }
        requires belongs { IsTrue (belongs self.old.making place) }
        requires missing { piece_at self.old.making place.number ≡ None }
        ensures ok { IfOk result (λ whole. (self.new ≡ record { flags = self.old.flags; making = with_piece self.old.making place bytes.now }) × (whole ≡ is_whole self.new.making)) }
        ensures err { OnErr result (self.new ≡ self.old) }
        ensures memory { IfErr result (λ why. why ≡ Refusal.Memory) }
    {
        self.inner.making.add(place, bytes)?;
        Ok(self.inner.making.is_whole())
    }

    /// The packet, out of that memory.
    pub(crate) fn into_packet(self) -> IncomingPacket
        ensures { result ≡ self }
    {
        let BoxedPacket { inner } = self;
        Box::into_inner(inner)
    }
}
