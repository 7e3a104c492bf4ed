//! What a peer is given to send, and puts out.

ghost use Rattle.std.specs.Prelude.{◌≡◌, ◌≤◌, nat_lt, [], OnOk};
ghost use Rattle.enet_fragment.specs.Cutting.{planned, piece_count};
ghost use Rattle.enet_sender.specs.CommandChoice.{fragment_limit};
ghost use Rattle.enet_peer.specs.Calls.{is_connected, submission_refusal, Submits, handed_back, pace_of, destination_of, gone_on, PutsOut};

use crate::{Ending, Peer, PeerState};
use bytes::Bytes;
use enet_codec::Refusal;
use enet_fragment::plan;
use enet_outbox::{Destination, Pace};

impl Peer {
    /// Submits a packet on a channel; `flags` are its flags (RELIABLE 1, UNSEQUENCED 2, UNRELIABLE_FRAGMENT 8, others are
    /// ignored). It goes unsequenced where it asks for that, does not ask to be reliable and needs no cutting (ENet 1.3).
    ///
    /// A refusal is the first that applies: E3 where the peer is not connected; E4 where there is no such channel; E5 where
    /// the body is longer than the limits allow, or would be cut into more than 16,384 pieces; E1 where memory is refused (our
    /// profile). After it nothing has changed, and the body is still there; else it is taken, and an empty one left.
    pub fn submit(&mut self, channel: u8, flags: u8, body: &mut Bytes) -> Result<(), Refusal>
        ensures submits { Submits (handed_back result body.new) self.old.peer self.new.peer channel (record { flags = flags; body = body.old }) }
        ensures taken { OnOk result (body.new ≡ []) }
        ensures room { self.new.room ≡ self.old.room }
    {
        if let Some(why) = self.submission_refusal(channel, body.len()) {
            return Err(why);
        }
        self.outbox.submit(self.terms.mtu, channel, flags, body)
    }

    /// The first refusal but want of memory that a packet of so many bytes meets on a channel, if there is one: E3, E4 or E5.
    pub fn submission_refusal(&self, channel: u8, len: usize) -> Option<Refusal>
        ensures { result ≡ submission_refusal self.now.peer channel len }
    {
        if !self.is_connected() {
            return Some(Refusal::NotConnected);
        }
        if channel as usize >= self.outbox.channels() {
            return Some(Refusal::NoSuchChannel);
        }
        if len > self.limits.max_packet as usize || is_cut_too_often(len, self.terms.mtu) {
            return Some(Refusal::TooLarge);
        }
        None
    }

    /// Whether the connection stands.
    pub(crate) fn is_connected(&self) -> bool
        ensures { result ≡ is_connected self.now.peer.state }
    {
        matches!(self.state, PeerState::Connected)
    }

    /// Writes the next datagram at the front of the buffer, at the time `now` in milliseconds, and gives its length; None
    /// where no command goes. Then, also where it gives None, a peer that is to disconnect later asks once it is done, one
    /// that acknowledged a DISCONNECT has ended, and one that has sent its last DISCONNECT is free.
    pub fn emit(&mut self, now: u32, buf: &mut [u8; 4096]) -> Option<usize>
        ensures { PutsOut now result self.old.peer self.new.peer buf.new }
    {
        let pace = self.pace(now);
        let to = self.destination();
        let len = self.outbox.emit(pace, to, buf);
        self.go_on();
        len
    }

    /// What sending goes by.
    fn pace(&self, now: u32) -> Pace
        ensures pace { result ≡ pace_of self.now.peer now }
        ensures mtu { (576 ≤ result.mtu) × (result.mtu ≤ 4096) }
    {
        Pace {
            now,
            timeout: self.timing.timeout_of(),
            window: self.terms.window,
            mtu: self.terms.mtu.min(4_096).max(576),
        }
    }

    /// To whom a datagram goes.
    fn destination(&self) -> Destination
        ensures { result ≡ destination_of self.now.peer }
    {
        Destination {
            slot: self.terms.slot,
            session: self.terms.outgoing_session,
            offset: self.offset,
        }
    }

    /// What comes once a datagram has gone, if there was one to go.
    fn go_on(&mut self)
        ensures { self.new.peer ≡ gone_on self.old.peer }
    {
        match self.state {
            PeerState::AckDisconnect => self.end(Ending::AskedThere, self.info),
            PeerState::Parting => {
                if !self.outbox.has_controls() {
                    self.free();
                }
            }
            _ => self.settle(),
        }
    }
}

/// So many bytes are cut into few enough pieces at any mtu: 16,384 of 548 bytes.
const SURELY_FEW: usize = 8_978_432;

/// Whether a packet of so many bytes would be cut into more than 16,384 pieces.
#[tactic(auto, unfolding(enet_fragment::specs::Cutting::planned))]
fn is_cut_too_often(len: usize, mtu: u32) -> bool
    requires { (576 ≤ mtu) × (mtu ≤ 4096) }
    ensures { result ≡ nat_lt fragment_limit (piece_count len mtu) }
{
    len > SURELY_FEW && plan(len, mtu).is_none()
}
