//! A sequenced data command: one piece of a packet, or a whole one.

ghost use Rattle.std.specs.Prelude.{◌≡◌};
ghost use Rattle.enet_codec.specs.Message.{view};
ghost use Rattle.enet_fragment.specs.DataCommand.{message_of, IsReadAsWritten};
ghost use Rattle.enet_fragment.specs.declared.data.DataCommand.{DataCommand};

use bytes::Bytes;
use enet_codec::{Command, Fragment, Head};

/// A sequenced data command: what a sender queues, and what a receiver takes in.
#[derive(Drop)]
pub struct DataCommand {
    /// Whether it is acknowledged, and dispatched in the order of the reliable numbers.
    pub reliable: bool,
    /// Its reliable number; an unreliable command has that of the last reliable command before it.
    pub number: u16,
    /// Its unreliable number, 0 for a reliable command.
    pub unreliable: u16,
    /// Where it stands in its packet, if that goes in pieces.
    pub fragment: Option<Fragment>,
    /// Its payload.
    pub body: Bytes,
}

impl DataCommand {
    /// The command on the wire: SEND_RELIABLE, SEND_UNRELIABLE, SEND_FRAGMENT or SEND_UNRELIABLE_FRAGMENT. A reliable one
    /// asks for an acknowledgement (ENet 1.3).
    pub fn command(&self, channel: u8) -> Command<'_>
        ensures { view result ≡ message_of channel self.now }
    {
        let head = Head {
            acknowledge: self.reliable,
            unsequenced: false,
            channel,
            number: self.number,
        };
        let payload = self.body.as_slice();
        match (self.reliable, self.fragment) {
            (true, None) => Command::SendReliable { head, payload },
            (true, Some(fragment)) => Command::SendFragment {
                head,
                fragment,
                payload,
            },
            (false, None) => Command::SendUnreliable {
                head,
                unreliable: self.unreliable,
                payload,
            },
            (false, Some(fragment)) => Command::SendUnreliableFragment {
                head,
                fragment,
                payload,
            },
        }
    }
}

/// A law of `DataCommand::command`, by its contract alone: what it writes is read as the same command, where the command is
/// one that a sender makes: its unreliable number is 0 if it is reliable, and a fragment's start number if it is not.
pub fn what_is_read_was_written()
    ensures { (c : DataCommand) → IsReadAsWritten c }
{}
