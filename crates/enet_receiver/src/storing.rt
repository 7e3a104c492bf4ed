//! Where a piece goes that is taken in.

ghost use Rattle.std.specs.Prelude.{◌≡◌, ◌+◌, ◌≤◌, ◌<◌, ◌^◌, IsTrue, OnOk, OnErr, IfOk, length, true, false, None};
ghost use Rattle.std.specs.FinMap.{get, insert, len};
ghost use Rattle.std.specs.VecDeque.{deque_len, deque_capacity};
ghost use Rattle.enet_fragment.specs.Place.{is_sound};
ghost use Rattle.enet_fragment.specs.DataCommand.{place_in_packet};
ghost use Rattle.enet_packets.specs.Packets.{line_at, with_line, packets_in};
ghost use Rattle.enet_receiver.specs.ArrivingData.{data_command};
ghost use Rattle.enet_receiver.specs.DataOutcome.{agrees_with, came, came_at, earlier_or_new, with_more};
ghost use Rattle.enet_receiver.specs.Private.ReceiverParts.{holding, with_stored};

use crate::arriving_data::ArrivingData;
use crate::held::Held;
use enet_codec::Refusal;
use enet_fragment::PartialPacket;
use enet_packets::{Dispatched, IncomingPacket, Waiting};
use std::alloc::Global;
use std::collections::VecDeque;

/// Makes room for all that is held or waits and one packet more to be dispatched.
pub(crate) fn make_room(
    held: &Held,
    waiting: &Waiting,
    dispatched: &mut VecDeque<Dispatched>,
) -> bool
    requires { len held.now + packets_in waiting.now < 2 ^ 63 }
    ensures items { dispatched.new.items ≡ dispatched.old.items }
    ensures room { IsTrue result → deque_len dispatched.new + (len held.now + packets_in waiting.now + 1) ≤ deque_capacity dispatched.new }
{
    dispatched
        .reserve(held.len() + waiting.packets() + 1)
        .is_ok()
}

/// For so many packets room to dispatch them stays, however few are held or wait.
const STAYING_ROOM: usize = 64;

/// Gives the room to dispatch packets back, where nothing is dispatched and it is for over four times as many as are held or wait. So a
/// channel on which many were held or waited, and aren't any more, keeps no room for them.
pub(crate) fn give_room_back(
    alloc: Global,
    held: &Held,
    waiting: &Waiting,
    dispatched: &mut VecDeque<Dispatched>,
)
    ensures { dispatched.new.items ≡ dispatched.old.items }
{
    let room = dispatched.capacity();
    if room > STAYING_ROOM && dispatched.is_empty() {
        let packets = held.len().saturating_add(waiting.packets());
        if packets < room / 4 {
            *dispatched = VecDeque::new(alloc);
        }
    }
}

/// The packet of which this is the first piece that came.
pub(crate) fn begun(alloc: Global, arriving: ArrivingData<'_>) -> Result<IncomingPacket, Refusal>
    requires short { length arriving.payload.now < 2 ^ 32 }
    requires sound { IsTrue (is_sound (place_in_packet (data_command arriving))) }
    ensures { IfOk result (λ coming. coming ≡ with_more (earlier_or_new None (data_command arriving.entry)) (data_command arriving.entry)) }
{
    let making = PartialPacket::first(alloc, arriving.place(), arriving.payload)?;
    Ok(IncomingPacket {
        flags: arriving.flags(),
        making,
    })
}

/// Adds a piece to the reliable packet of this number.
fn hold(
    alloc: Global,
    held: &mut Held,
    number: u16,
    arriving: ArrivingData<'_>,
) -> Result<(), Refusal>
    requires short { length arriving.payload.now < 2 ^ 32 }
    requires sound { IsTrue (is_sound (place_in_packet (data_command arriving))) }
    requires agrees { agrees_with (get held.old number) (data_command arriving) ≡ true }
    requires missing { came (get held.old number) (data_command arriving) ≡ false }
    ensures ok { OnOk result (held.new ≡ insert held.old number (with_more (earlier_or_new (get held.old number) (data_command arriving.entry)) (data_command arriving.entry))) }
    ensures err { OnErr result (held.new ≡ held.old) }
{
    if held.get(number).is_some() {
        return held.add(number, arriving.place(), arriving.payload);
    }
    let coming = begun(alloc, arriving)?;
    held.insert(number, coming)
}

/// Adds a piece to the unreliable packet that waits for this number.
fn wait(
    alloc: Global,
    waiting: &mut Waiting,
    number: u16,
    arriving: ArrivingData<'_>,
) -> Result<(), Refusal>
    requires short { length arriving.payload.now < 2 ^ 32 }
    requires sound { IsTrue (is_sound (place_in_packet (data_command arriving))) }
    requires agrees { agrees_with (get (line_at waiting.old number) arriving.unreliable) (data_command arriving) ≡ true }
    requires missing { came (get (line_at waiting.old number) arriving.unreliable) (data_command arriving) ≡ false }
    ensures ok { OnOk result (waiting.new ≡ with_line waiting.old number (insert (line_at waiting.old number) arriving.entry.unreliable
        (with_more (earlier_or_new (get (line_at waiting.old number) arriving.entry.unreliable) (data_command arriving.entry)) (data_command arriving.entry)))) }
    ensures room { OnOk result (packets_in waiting.new ≤ packets_in waiting.old + 1) }
    ensures err { OnErr result (waiting.new ≡ waiting.old) }
{
    if waiting.get(number, arriving.unreliable).is_some() {
        return waiting.add(
            number,
            arriving.unreliable,
            arriving.place(),
            arriving.payload,
        );
    }
    let coming = begun(alloc, arriving)?;
    waiting.insert(number, arriving.unreliable, coming)
}

/// Adds a piece to its packet, where memory is not refused.
pub(crate) fn store(
    alloc: Global,
    held: &mut Held,
    waiting: &mut Waiting,
    number: u16,
    arriving: ArrivingData<'_>,
) -> bool
    requires short { length arriving.payload.now < 2 ^ 32 }
    requires sound { IsTrue (is_sound (place_in_packet (data_command arriving))) }
    requires agrees { agrees_with (came_at (holding held.old waiting.old) (data_command arriving) number) (data_command arriving) ≡ true }
    requires missing { came (came_at (holding held.old waiting.old) (data_command arriving) number) (data_command arriving) ≡ false }
    ensures stored { IsTrue result → holding held.new waiting.new ≡ with_stored (holding held.old waiting.old) (data_command arriving.entry) number }
    ensures room { IsTrue result → len held.new + packets_in waiting.new ≤ len held.old + packets_in waiting.old + 1 }
    ensures held { result ≡ false → held.new ≡ held.old }
    ensures waiting { result ≡ false → waiting.new ≡ waiting.old }
{
    if arriving.reliable {
        hold(alloc, held, number, arriving).is_ok()
    } else {
        wait(alloc, waiting, number, arriving).is_ok()
    }
}
