//! What the user of an end takes is kept.

ghost use Rattle.std.specs.Prelude.{◌≡◌, OnOk, OnErr, IfOk, IfErr, IsTrue};
ghost use Rattle.std.specs.Bool.{OnFalse};
ghost use Rattle.enet_codec.specs.declared.event.Event.TheVariants as events;
ghost use Rattle.law_network.specs.Log.{with_packets, with_taken};
ghost use Rattle.law_network.specs.Steps.{with_event};

use crate::end::{Channel, End};
use enet_codec::{Event, Packet, Refusal};

/// A second owner of the same packet. E1 where memory is refused.
fn copy_of(packet: &Packet) -> Result<Packet, Refusal>
    ensures same { IfOk result (λ copy. copy ≡ packet.now) }
    ensures memory { IfErr result (λ why. why ≡ Refusal.Memory) }
{
    let Ok(body) = packet.body.clone() else {
        return Err(Refusal::Memory);
    };
    Ok(Packet {
        channel: packet.channel,
        flags: packet.flags,
        body,
    })
}

/// Keeps a packet that is taken. Where there is no memory it answers false, and nothing is changed.
fn keep_taken(channels: &mut [Channel], packet: Packet) -> bool
    ensures kept { IsTrue result → channels.new ≡ with_packets channels.old packet.channel (with_taken packet) }
    ensures unchanged { OnFalse result (channels.new ≡ channels.old) }
{
    let i = usize::from(packet.channel);
    if i >= channels.len() {
        return true;
    }
    let kept = &mut channels[i];
    kept.taken.push(packet).is_ok()
}

impl End {
    /// Keeps that its user takes this packet next: with the packets of its channel, and among the events. E1 where memory is
    /// refused, with nothing changed.
    pub fn keep_packet(&mut self, packet: &Packet) -> Result<(), Refusal>
        ensures memory { IfErr result (λ why. why ≡ Refusal.Memory) }
        ensures unchanged { OnErr result (self.new ≡ self.old) }
        ensures kept { OnOk result (self.new ≡ with_event (events.Receive self.old.name packet.now) self.old) }
    {
        let taken = copy_of(packet)?;
        let told = copy_of(packet)?;
        if self.events.reserve(1).is_err() || !keep_taken(&mut self.channels, taken) {
            return Err(Refusal::Memory);
        }
        self.events.push_reserved(Event::Receive {
            peer: self.name,
            packet: told,
        });
        Ok(())
    }
}
