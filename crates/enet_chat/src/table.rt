//! The peers that are connected.

use enet_codec::{Event, PeerRef, Refusal};
use std::alloc::Global;
use std::marker::Model;

/// The connected peers, in the order in which they connected, each once. A contract sees the list.
#[derive(Drop)]
pub struct Table {
    pub(crate) peers: Vec<PeerRef>,
}

impl Model for Table {
    ghost use Rattle.std.specs.Prelude.{◌≡◌, List, true};
    ghost use Rattle.enet_codec.specs.declared.event.PeerRef.{PeerRef as Peer};
    ghost use Rattle.enet_chat.specs.Peers.{has_each_once};

    ghost Value = { List Peer };

    ghost view = { λ t. t.peers.items };

    ghost invariant = { λ t. has_each_once t.peers.items ≡ true };
}

impl Table {
    ghost use Rattle.std.specs.Prelude.{◌≡◌, [], true, false, length, OnOk, OnErr, IfErr};
    ghost use Rattle.enet_chat.specs.Chat.{noted, IsNewcomer};
    ghost use Rattle.enet_chat.specs.Peers.{has_each_once};

    /// A table without peers.
    pub fn open(alloc: Global) -> Table
        ensures { result ≡ [] }
    {
        Table {
            peers: Vec::new(alloc),
        }
    }

    /// How many peers are connected.
    pub fn len(&self) -> usize
        ensures { result ≡ length self.now }
    {
        self.peers.len()
    }

    /// The peers.
    pub(crate) fn as_slice(&self) -> &[PeerRef]
        ensures peers { result.now ≡ self.now }
        ensures once { has_each_once result.now ≡ true }
    {
        self.peers.as_slice()
    }

    /// Takes an event in: a Connect adds its peer as the last, unless it is there already, and a Disconnect takes its peer
    /// out. Every other event leaves the table as it is.
    ///
    /// E1 where a new peer finds no memory; the table is then as it was.
    pub fn note(&mut self, event: &Event) -> Result<(), Refusal>
        ensures noted { OnOk result (self.new ≡ noted self.old event.now) }
        ensures memory { IfErr result (λ why. (why ≡ Refusal.Memory) × IsNewcomer self.old event.now) }
        ensures same { OnErr result (self.new ≡ self.old) }
    {
        match event {
            Event::Connect { peer, .. } => self.add(*peer),
            Event::Disconnect { peer, .. } => {
                self.remove(*peer);
                Ok(())
            }
            _ => Ok(()),
        }
    }
}

impl Table {
    ghost use Rattle.std.specs.Prelude.{◌≡◌, false, ◌∷◌, [], ◌++◌, if◌then◌else◌, OnOk, OnErr, IfErr};
    ghost use Rattle.enet_chat.specs.Peers.{has, others};

    fn has(&self, peer: PeerRef) -> bool
        ensures { result ≡ has self.now peer }
    {
        self.peers.as_slice().contains(&peer)
    }

    fn add(&mut self, peer: PeerRef) -> Result<(), Refusal>
        ensures added { OnOk result (self.new ≡ (if has self.old peer then self.old else self.old ++ peer ∷ [])) }
        ensures memory { IfErr result (λ why. (why ≡ Refusal.Memory) × (has self.old peer ≡ false)) }
        ensures same { OnErr result (self.new ≡ self.old) }
    {
        if self.has(peer) {
            return Ok(());
        }
        match self.peers.push(peer) {
            Ok(()) => Ok(()),
            Err(_) => Err(Refusal::Memory),
        }
    }

    fn remove(&mut self, peer: PeerRef)
        ensures { self.new ≡ others self.old peer }
    {
        self.peers.retain(|p| *p != peer);
    }
}
