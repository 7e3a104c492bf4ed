//! One peer.

ghost use Rattle.std.specs.Prelude.{◌≡◌};

use crate::{Ending, Limits, PeerState};
use enet_codec::Offer;
use enet_connect::Terms;
use enet_inbox::Inbox;
use enet_outbox::Outbox;
use enet_rtt::{Patience, Timing};
use std::marker::Model;

/// One peer: how far its connection has come, on which terms it stands, what came from it and what it is to be sent.
/// Contracts see it as a `Peered`: all of that, and for how many more commands of channel 0xFF and acknowledgements there is
/// room. Times are in milliseconds.
#[derive(Drop)]
pub struct Peer {
    pub(crate) state: PeerState,
    /// Whether this end began by a CONNECT that came: it is the server then, from its beginning to its end.
    pub(crate) is_server: bool,
    /// The word for the next event of the connection, or for the DISCONNECT that is to come.
    pub(crate) info: u32,
    pub(crate) terms: Terms,
    /// What the client asked for.
    pub(crate) offer: Offer,
    pub(crate) limits: Limits,
    /// What this end adds to its sent times, modulo 65,536.
    pub(crate) offset: u16,
    pub(crate) patience: Patience,
    pub(crate) ping_interval: u32,
    pub(crate) timing: Timing,
    /// When an acknowledgement was last matched, or at first when the peer was made.
    pub(crate) heard: u32,
    /// When the peer was made.
    pub(crate) made: u32,
    /// Whether its host was full when its client confirmed: it is told so, and let go.
    pub(crate) refused: bool,
    /// The other end's incoming bandwidth as last told, in bytes per second.
    pub(crate) other_incoming: u32,
    /// A Connect event that wasn't taken.
    pub(crate) greeting: Option<u32>,
    /// Why the connection has ended.
    pub(crate) ending: Option<Ending>,
    pub(crate) inbox: Inbox,
    pub(crate) outbox: Outbox,
}

impl Model for Peer {
    ghost use Rattle.enet_peer.specs.Peered.{Peered, KeepsPeer};

    ghost Value = { Peered };

    ghost use Rattle.std.specs.Coded.{codes};
    ghost use Rattle.enet_inbox.specs.Codes.{inbox_code};

    ghost coded = { Prim.hlevel (codes, inbox_code) };

    ghost view = { λ p. record {
      peer = record {
        state = p.state;
        is_server = p.is_server;
        info = p.info;
        terms = p.terms;
        offer = p.offer;
        limits = p.limits;
        offset = p.offset;
        patience = p.patience;
        ping_interval = p.ping_interval;
        estimate = p.timing;
        heard = p.heard;
        made = p.made;
        refused = p.refused;
        other_incoming = p.other_incoming;
        greeting = p.greeting;
        ending = p.ending;
        inbox = p.inbox;
        outbox = p.outbox.outbox;
      };
      room = p.outbox.control_room;
      acknowledgement_room = p.outbox.acknowledgement_room;
    } };

    ghost invariant = { λ p. KeepsPeer p.state p.terms };
}

impl Peer {
    /// How far the connection has come.
    pub fn state(&self) -> PeerState
        ensures { result ≡ self.now.peer.state }
    {
        self.state
    }

    /// Why the connection has ended; None while it hasn't ended for this end, or if it ended without a Disconnect event.
    pub fn ending(&self) -> Option<Ending>
        ensures { result ≡ self.now.peer.ending }
    {
        self.ending
    }

    /// Whether it began by a CONNECT that came.
    pub fn is_server(&self) -> bool
        ensures { result ≡ self.now.peer.is_server }
    {
        self.is_server
    }

    /// When it was made, in milliseconds by its host's clock.
    pub fn made(&self) -> u32
        ensures { result ≡ self.now.peer.made }
    {
        self.made
    }

    /// The terms on which this end stands; while it still connects, those that it asked for, with slot 0xFFF. The window
    /// follows what the other end tells of its bandwidths; the throttle's numbers stay as they were agreed.
    pub fn terms(&self) -> Terms
        ensures { result ≡ self.now.peer.terms }
    {
        self.terms
    }

    /// The other end's incoming bandwidth as last told, in bytes per second; 0 says that no limit is known.
    pub fn other_incoming(&self) -> u32
        ensures { result ≡ self.now.peer.other_incoming }
    {
        self.other_incoming
    }
}
