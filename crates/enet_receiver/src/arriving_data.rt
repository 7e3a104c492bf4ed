//! A sequenced data command that comes.

ghost use Rattle.std.specs.Prelude.{◌≡◌, ◌+◌, ◌<◌, ◌^◌, ◌%◌, if◌then◌else◌, IfSome, IsTrue, length};
ghost use Rattle.std.specs.Option.{option_copied, option_map};
ghost use Rattle.enet_codec.specs.Message.{view};
ghost use Rattle.enet_fragment.specs.DataCommand.{data_of, piece_of, place_in_packet};
ghost use Rattle.enet_receiver.specs.ArrivingData.{data_command};
ghost use Rattle.enet_receiver.specs.DataOutcome.{own_place, is_piece, agrees_with, came, flags_of};

use enet_codec::{Command, Fragment, Head, RELIABLE, UNRELIABLE_FRAGMENT};
use enet_fragment::Place;
use enet_packets::IncomingPacket;
use enet_seq::after;

/// How many reliable numbers there are.
const NUMBERS: u32 = 65_536;

/// A sequenced data command that comes: a packet, or one piece of it.
#[derive(Clone, Copy)]
pub struct ArrivingData<'a> {
    /// Its channel, its reliable number, and whether it asks for an acknowledgement.
    pub head: Head,
    /// Whether it is dispatched in the order of the reliable numbers.
    pub reliable: bool,
    /// Its unreliable number, 0 for a reliable command; that of a fragment is its start number.
    pub unreliable: u16,
    /// Where it stands in its packet, if that comes in pieces.
    pub fragment: Option<Fragment>,
    /// Its payload.
    pub payload: &'a [u8],
}

impl<'a> ArrivingData<'a> {
    /// The sequenced data command that a command is, if it is one.
    pub fn of(command: &Command<'a>) -> Option<ArrivingData<'a>>
        ensures data { option_map data_command result ≡ data_of (view command.now) }
        ensures head { IfSome result (λ arriving. arriving.head ≡ (view command.now).head) }
    {
        match *command {
            Command::SendReliable { head, payload } => Some(ArrivingData {
                head,
                reliable: true,
                unreliable: 0,
                fragment: None,
                payload,
            }),
            Command::SendUnreliable {
                head,
                unreliable,
                payload,
            } => Some(ArrivingData {
                head,
                reliable: false,
                unreliable,
                fragment: None,
                payload,
            }),
            Command::SendFragment {
                head,
                fragment,
                payload,
            } => Some(ArrivingData {
                head,
                reliable: true,
                unreliable: 0,
                fragment: Some(fragment),
                payload,
            }),
            Command::SendUnreliableFragment {
                head,
                fragment,
                payload,
            } => Some(ArrivingData {
                head,
                reliable: false,
                unreliable: fragment.start,
                fragment: Some(fragment),
                payload,
            }),
            _ => None,
        }
    }

    /// The number of its packet's first piece.
    pub(crate) fn start(self) -> u16
        ensures { result ≡ (piece_of (data_command self.entry)).start }
    {
        match self.fragment {
            Some(fragment) => fragment.start,
            None => self.head.number,
        }
    }

    /// The number that names its packet, under which that is held or for which it waits, where it is inside the window.
    pub(crate) fn own_place(self) -> u16
        ensures { result ≡ own_place (data_command self.entry) }
    {
        if self.reliable {
            self.start()
        } else {
            self.head.number
        }
    }

    /// Which piece of its packet it is.
    pub(crate) fn piece(self) -> Fragment
        requires { length self.payload.now < 2 ^ 32 }
        ensures { result ≡ piece_of (data_command self.entry) }
    {
        match self.fragment {
            Some(fragment) => fragment,
            None => Fragment {
                start: self.head.number,
                count: 1,
                number: 0,
                total: self.payload.len() as u32,
                offset: 0,
            },
        }
    }

    /// The place of that piece.
    pub(crate) fn place(self) -> Place
        requires { length self.payload.now < 2 ^ 32 }
        ensures { result ≡ place_in_packet (data_command self.entry) }
    {
        let piece = self.piece();
        Place {
            number: piece.number,
            count: piece.count,
            total: piece.total,
            offset: piece.offset,
            len: self.payload.len(),
        }
    }

    /// Whether it can be a piece of a packet of at most `most` bytes, and has the number of that piece.
    pub(crate) fn is_piece(self, most: u32) -> bool
        ensures value { result ≡ is_piece most (data_command self.entry) }
        ensures short { IsTrue result → length self.entry.payload.now < 2 ^ 32 }
    {
        if self.payload.len() > most as usize {
            return false;
        }
        let piece = self.piece();
        self.place().is_sound()
            && piece.total <= most
            && (!self.reliable || self.head.number == own_number(piece))
    }

    /// Whether it agrees with the pieces of its packet that came.
    pub(crate) fn agrees_with(self, earlier: Option<&IncomingPacket>) -> bool
        requires { length self.payload.now < 2 ^ 32 }
        ensures { result ≡ agrees_with (option_copied earlier.entry) (data_command self.entry) }
    {
        match earlier {
            None => true,
            Some(coming) => self.fragment.is_none() || coming.making.belongs(self.place()),
        }
    }

    /// Whether its place is taken, or the piece came.
    pub(crate) fn came(self, earlier: Option<&IncomingPacket>) -> bool
        requires { length self.payload.now < 2 ^ 32 }
        ensures { result ≡ came (option_copied earlier.entry) (data_command self.entry) }
    {
        match earlier {
            None => false,
            Some(coming) => self.fragment.is_none() || coming.making.has(self.piece().number),
        }
    }

    /// The last unreliable number that was dispatched, once its packet is.
    pub(crate) fn last_unreliable(self) -> u16
        ensures { result ≡ (if self.entry.reliable then 0 else self.entry.unreliable) }
    {
        if self.reliable { 0 } else { self.unreliable }
    }

    /// The flags of its packet.
    pub(crate) fn flags(self) -> u8
        ensures { result ≡ flags_of (data_command self.entry) }
    {
        if self.reliable {
            return RELIABLE;
        }
        match self.fragment {
            Some(_) => UNRELIABLE_FRAGMENT,
            None => 0,
        }
    }
}

/// The reliable number of a piece.
fn own_number(piece: Fragment) -> u16
    ensures { result ≡ (piece.start + piece.number) % 65536 }
{
    after(piece.start, (piece.number % NUMBERS) as u16)
}
