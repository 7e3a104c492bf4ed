//! A host that is full lets a client go that confirms its answer.

ghost use Rattle.std.specs.Prelude.{◌≡◌, ◌≤◌};
ghost use Rattle.enet_codec.specs.Message.{view};
ghost use Rattle.enet_peer.specs.Calls.{is_answering};
ghost use Rattle.enet_peer.specs.Refusing.{confirms, full_word, is_turned_away, reminded, told_again, told_full, turned_away};
ghost use Rattle.enet_peer.specs.Private.Handling.{matches_control};

use crate::{Peer, PeerState};
use enet_codec::Command;
use enet_senders::Control;

/// The word of the DISCONNECT that tells a client that the host is full (our profile).
fn full_word() -> u32
    ensures { result ≡ full_word }
{
    u32::MAX
}

impl Peer {
    /// Whether it waits for its client to confirm its answer, or has been refused since and still is there.
    pub fn is_answering(&self) -> bool
        ensures { result ≡ is_answering self.now.peer.state }
    {
        self.state == PeerState::Answering
    }

    /// Whether its host was full when its client confirmed: it is told so for some seconds, and nothing of it is taken in.
    pub fn is_refused(&self) -> bool
        ensures { result ≡ is_turned_away self.now.peer }
    {
        self.is_answering() && self.refused
    }

    /// Whether a command is the acknowledgement by which its client confirms the answer.
    pub(crate) fn confirms(&self, command: &Command<'_>) -> bool
        ensures { result ≡ confirms self.now.peer (view command.now) }
    {
        match *command {
            Command::Acknowledge {
                head,
                received_number,
                received_time,
            } => {
                self.is_answering()
                    && self
                        .outbox
                        .is_answer(head.channel, received_number, self.meant(received_time))
            }
            _ => false,
        }
    }

    /// Whether a command is an acknowledgement that matches anything of channel 0xFF.
    pub(crate) fn matches_control(&self, command: &Command<'_>) -> bool
        ensures { result ≡ matches_control self.now.peer (view command.now) }
    {
        match *command {
            Command::Acknowledge {
                head,
                received_number,
                received_time,
            } => self
                .outbox
                .matches_control(head.channel, received_number, self.meant(received_time)),
            _ => false,
        }
    }

    /// The client confirmed, and the host is full: it is told so, and refused from now on.
    pub(crate) fn turn_away(&mut self)
        ensures { self.new.peer ≡ turned_away self.old.peer }
    {
        self.tell_full();
        self.refused = true;
    }

    /// A datagram came from a client that was refused: it is told again if the datagram tells a sent time. The word itself tells none, so two
    /// hosts that refuse one another don't go on telling.
    pub(crate) fn remind(&mut self, sent: Option<u16>)
        ensures { self.new.peer ≡ reminded sent self.old.peer }
    {
        match sent {
            Some(_) => self.tell_again(),
            None => {}
        }
    }

    /// It is told again, unless that still is to go.
    fn tell_again(&mut self)
        ensures { self.new.peer ≡ told_again self.old.peer }
    {
        if !self.outbox.has_controls() {
            self.tell_full();
        }
    }

    /// Of channel 0xFF nothing goes any more but one unsequenced DISCONNECT, which says that the host is full.
    fn tell_full(&mut self)
        ensures { self.new.peer ≡ told_full self.old.peer }
    {
        self.outbox.drop_controls();
        self.outbox
            .queue_control(Control::DisconnectNow { info: full_word() });
    }
}
