//! How a connection ends.

ghost use Rattle.std.specs.Prelude.{◌≡◌, ◌≤◌};
ghost use Rattle.enet_peer.specs.Endings.{dropped, ended, freed, settled, disconnecting, parting};
ghost use Rattle.enet_peer.specs.Private.Peered.{places_of};

use crate::{Ending, Peer, PeerState};
use enet_senders::Control;

impl Peer {
    /// Drops all that is undispatched, queued or sent, acknowledgements too. Then there is room for one command of channel
    /// 0xFF.
    pub(crate) fn drop_all(&mut self)
        ensures peer { self.new.peer ≡ dropped self.old.peer }
        ensures acknowledgement_room { self.old.acknowledgement_room ≤ self.new.acknowledgement_room }
        ensures places { places_of self.old ≤ places_of self.new }
        ensures room { 1 ≤ self.new.room }
    {
        self.inbox.clear();
        self.outbox.clear();
    }

    /// Ends the connection for this reason, of which the user is told this word.
    pub(crate) fn end(&mut self, why: Ending, info: u32)
        ensures peer { self.new.peer ≡ ended self.old.peer why info }
        ensures acknowledgement_room { self.old.acknowledgement_room ≤ self.new.acknowledgement_room }
        ensures places { places_of self.old ≤ places_of self.new }
    {
        self.drop_all();
        self.state = PeerState::Ended;
        self.info = info;
        self.ending = Some(why);
    }

    /// Ends the connection, of which the user is told nothing more.
    pub(crate) fn free(&mut self)
        ensures peer { self.new.peer ≡ freed self.old.peer }
        ensures acknowledgement_room { self.old.acknowledgement_room ≤ self.new.acknowledgement_room }
        ensures places { places_of self.old ≤ places_of self.new }
    {
        self.outbox.clear();
        self.inbox.forget();
        self.greeting = None;
        self.state = PeerState::Free;
    }

    /// Drops all, and queues a reliable DISCONNECT with this word.
    pub(crate) fn ask_to_disconnect(&mut self, info: u32)
        ensures peer { self.new.peer ≡ disconnecting self.old.peer info }
        ensures acknowledgement_room { self.old.acknowledgement_room ≤ self.new.acknowledgement_room }
    {
        self.drop_all();
        self.outbox.queue_control(Control::Disconnect { info });
        self.state = PeerState::Disconnecting;
        self.info = 0;
    }

    /// Drops all, and queues one unsequenced DISCONNECT with this word. The user is told nothing more.
    pub(crate) fn part(&mut self, info: u32)
        ensures peer { self.new.peer ≡ parting self.old.peer info }
        ensures acknowledgement_room { self.old.acknowledgement_room ≤ self.new.acknowledgement_room }
    {
        self.outbox.clear();
        self.outbox.queue_control(Control::DisconnectNow { info });
        self.inbox.forget();
        self.greeting = None;
        self.state = PeerState::Parting;
    }

    /// Disconnects a peer that was to do so later, once it is done.
    pub(crate) fn settle(&mut self)
        ensures peer { self.new.peer ≡ settled self.old.peer }
        ensures acknowledgement_room { self.old.acknowledgement_room ≤ self.new.acknowledgement_room }
    {
        if self.state == PeerState::DisconnectLater && self.outbox.is_done() {
            self.ask_to_disconnect(self.info);
        }
    }
}
