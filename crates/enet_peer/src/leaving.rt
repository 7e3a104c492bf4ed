//! How the user ends a connection.

ghost use Rattle.enet_peer.specs.Calls.{left, leave_by_asking, leave_now, leave_later, Leaves};

use crate::{Peer, PeerState};
use enet_codec::Refusal;

impl Peer {
    /// Disconnects with a word for the other end's user: all that is held, queued or unacknowledged is dropped,
    /// acknowledgements too, and DISCONNECT waits to be put out. What was dispatched stays ahead of the last event. Where the
    /// peer still connects, it is free at once; where it still answers, one unsequenced DISCONNECT goes. E3 where there is no
    /// connection or it ends already: then nothing has changed.
    pub fn disconnect(&mut self, info: u32) -> Result<(), Refusal>
        ensures { Leaves result (left (leave_by_asking self.old.peer.state) self.old.peer info) self.old.peer self.new.peer }
    {
        match self.state {
            PeerState::Connecting => self.free(),
            PeerState::Answering => self.part(info),
            PeerState::Connected | PeerState::DisconnectLater => self.ask_to_disconnect(info),
            _ => return Err(Refusal::NotConnected),
        }
        Ok(())
    }

    /// Ends the connection for the user at once: all is dropped, and one unsequenced DISCONNECT with this word goes. Where the
    /// peer still connects, it is free at once. E3 where there is no connection or it ends already: then nothing has changed.
    pub fn disconnect_now(&mut self, info: u32) -> Result<(), Refusal>
        ensures { Leaves result (left (leave_now self.old.peer.state) self.old.peer info) self.old.peer self.new.peer }
    {
        match self.state {
            PeerState::Connecting => self.free(),
            PeerState::Answering | PeerState::Connected | PeerState::DisconnectLater => {
                self.part(info);
            }
            _ => return Err(Refusal::NotConnected),
        }
        Ok(())
    }

    /// Disconnects with this word once all that is queued has gone and no reliable command waits for its acknowledgement;
    /// data that comes meanwhile is dropped. Where the peer still connects, it is free at once; where it still answers, one
    /// unsequenced DISCONNECT goes. E3 where there is no connection, or it ends already or is to end later: then nothing has
    /// changed.
    pub fn disconnect_later(&mut self, info: u32) -> Result<(), Refusal>
        ensures { Leaves result (left (leave_later self.old.peer.state) self.old.peer info) self.old.peer self.new.peer }
    {
        match self.state {
            PeerState::Connecting => self.free(),
            PeerState::Answering => self.part(info),
            PeerState::Connected => {
                self.state = PeerState::DisconnectLater;
                self.info = info;
                self.settle();
            }
            _ => return Err(Refusal::NotConnected),
        }
        Ok(())
    }
}
