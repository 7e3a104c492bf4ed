//! The course that a packet takes: its numbers and its pieces.

ghost use Rattle.std.specs.Prelude.{◌≡◌, ◌+◌, ◌-◌, ◌*◌, ◌<◌, ◌≤◌, ◌||◌, ◌&&◌, ◌==◌, ◌/◌, ◌%◌, nat_lt, not, if◌then◌else◌, Some, None, IfSome, IfNone, length};
ghost use Rattle.enet_seq.specs.Windows.{after};
ghost use Rattle.enet_fragment.specs.Cutting.{piece_length, piece_count};
ghost use Rattle.enet_sender.specs.Sender.{piece_of_body};
ghost use Rattle.enet_sender.specs.Course.{IsCourse, packet_course, start_of, fragment_of, command_of};

use bytes::Bytes;
use enet_codec::{Fragment, RELIABLE, UNRELIABLE_FRAGMENT};
use enet_fragment::{DataCommand, piece, piece_length, plan};
use enet_seq::after;

/// The course that a packet takes: the numbers given before it, and how it is cut.
#[derive(Clone, Copy)]
pub struct Course {
    /// Whether it goes as reliable commands.
    pub reliable: bool,
    /// The last reliable number given before it, and the unreliable number.
    pub number: u16,
    pub unreliable: u16,
    /// How many commands it goes in.
    pub pieces: u32,
    /// How many bytes it has.
    pub total: u32,
    /// The peer's, in bytes.
    pub mtu: u32,
}

/// Whether a packet of these flags goes reliable, `unreliable` being the last unreliable number given: it asks for it, or
/// the unreliable numbers are used up, or it is long and does not ask for unreliable fragments (ENet 1.3).
pub fn goes_reliable(flags: u8, unreliable: u16, is_long: bool) -> bool
    ensures { result ≡ (flags % 2 == 1 || unreliable == 65535 || (is_long && not (flags / 8 % 2 == 1))) }
{
    let asks_for_reliable = flags & RELIABLE != 0;
    let asks_for_unreliable_fragments = flags & UNRELIABLE_FRAGMENT != 0;
    asks_for_reliable || unreliable == u16::MAX || (is_long && !asks_for_unreliable_fragments)
}

/// Whether a packet of so many bytes goes in fragments.
pub fn is_long(len: usize, mtu: u32) -> bool
    requires { 576 ≤ mtu }
    ensures { result ≡ nat_lt (piece_length mtu) len }
{
    len > piece_length(mtu) as usize
}

/// Piece `i` of a body, sharing its bytes; None for want of memory, and where `piece` gives none.
#[tactic(auto, unfolding(enet_fragment::specs::Cutting::piece_span, enet_fragment::specs::Cutting::planned, enet_fragment::specs::Cutting::piece_count))]
pub fn cut(body: &Bytes, i: u32, mtu: u32) -> Option<Bytes>
    requires low { 576 ≤ mtu }
    requires high { mtu ≤ 4096 }
    ensures { IfSome result (λ cut. cut ≡ piece_of_body (piece_length mtu) body.now i) }
{
    let (offset, len) = piece(body, i, mtu)?;
    let (offset, len) = (offset as usize, len as usize);
    body.slice(offset..offset + len).ok()
}

impl Course {
    /// The course of a packet of these flags and this body, `number` and `unreliable` being the last numbers given; None
    /// where it would be cut into too many pieces.
    #[tactic(auto, unfolding(enet_fragment::specs::Cutting::planned, enet_fragment::specs::Cutting::piece_count))]
    pub fn plan(flags: u8, body: &Bytes, mtu: u32, number: u16, unreliable: u16) -> Option<Course>
        requires low { 576 ≤ mtu }
        requires high { mtu ≤ 4096 }
        ensures course { IfSome result (λ course. course ≡ packet_course mtu number unreliable flags body.now) }
        ensures limits { IfSome result IsCourse }
        ensures some { IfSome result (λ course. piece_count (length body.now) mtu ≤ 16384) }
        ensures none { IfNone result (16384 < piece_count (length body.now) mtu) }
    {
        let pieces = plan(body.len(), mtu)?;
        Some(Course {
            reliable: goes_reliable(flags, unreliable, is_long(body.len(), mtu)),
            number,
            unreliable,
            pieces,
            total: body.len() as u32,
            mtu,
        })
    }

    /// The course of a packet of these flags and this body that needs no cutting, `number` and `unreliable` being the last numbers
    /// given.
    pub fn whole(flags: u8, body: &Bytes, mtu: u32, number: u16, unreliable: u16) -> Course
        requires low { 576 ≤ mtu }
        requires high { mtu ≤ 4096 }
        requires short { length body.now ≤ piece_length mtu }
        ensures course { result ≡ packet_course mtu number unreliable flags body.now }
        ensures limits { IsCourse result }
    {
        Course {
            reliable: goes_reliable(flags, unreliable, false),
            number,
            unreliable,
            pieces: 1,
            total: body.len() as u32,
            mtu,
        }
    }

    /// Whether the packet goes in fragments.
    pub fn is_long(self) -> bool
        requires { IsCourse self }
        ensures { result ≡ nat_lt (piece_length self.mtu) self.total }
    {
        is_long(self.total as usize, self.mtu)
    }

    /// The number by which the pieces of the packet find one another: that of its first command.
    fn start(self) -> u16
        requires { IsCourse self }
        ensures { result ≡ start_of self }
    {
        if self.reliable {
            after(self.number, 1)
        } else {
            self.unreliable + 1
        }
    }

    /// The reliable number of command `i`.
    fn number_at(self, i: u32) -> u16
        requires { i < 16384 }
        ensures { result ≡ (if self.reliable then after self.number (i + 1) else self.number) }
    {
        if self.reliable {
            after(self.number, i as u16 + 1)
        } else {
            self.number
        }
    }

    /// The unreliable number of its commands, 0 where they are reliable.
    pub fn unreliable_number(self) -> u16
        requires { IsCourse self }
        ensures { result ≡ (if self.reliable then 0 else self.unreliable + 1) }
    {
        if self.reliable {
            0
        } else {
            self.unreliable + 1
        }
    }

    /// Where piece `i` stands in the packet, if that goes in fragments.
    fn fragment_at(self, i: u32) -> Option<Fragment>
        requires course { IsCourse self }
        requires inside { i < self.pieces }
        ensures { result ≡ (if nat_lt (piece_length self.mtu) self.total then Some (fragment_of self i) else None) }
    {
        if !self.is_long() {
            return None;
        }
        Some(Fragment {
            start: self.start(),
            count: self.pieces,
            number: i,
            total: self.total,
            offset: i * piece_length(self.mtu),
        })
    }

    /// Command `i`, with its body.
    pub fn command(self, i: u32, body: Bytes) -> DataCommand
        requires course { IsCourse self }
        requires inside { i < self.pieces }
        ensures { result ≡ command_of self i body }
    {
        DataCommand {
            reliable: self.reliable,
            number: self.number_at(i),
            unreliable: self.unreliable_number(),
            fragment: self.fragment_at(i),
            body,
        }
    }
}
