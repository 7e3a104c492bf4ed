//! The page of the events of a fleet: its definitions as functions of the events and of the answers to them.

use crate::draw::CHANNELS;
use enet_codec::{Addr, Event, PeerRef, Received, Refusal};
use enet_fleet::{Answer, FIRST_CLIENT, FleetEvent, Node, SERVER};
use std::alloc::{AllocError, Global};

/// A packet that was submitted: its bytes and flags.
type Packet<'a> = (&'a [u8], u8);

/// Events of a fleet of so many clients with what was answered to each; for each connection, who asked for it, what that client calls
/// its peer, and the server its own.
#[derive(Clone, Copy)]
pub struct Page<'a> {
    pub alloc: Global,
    pub clients: u16,
    pub events: &'a [FleetEvent],
    pub answers: &'a [Result<Answer, Refusal>],
    pub connections: &'a [(u16, PeerRef, Option<PeerRef>)],
}

/// Of which peer an event is.
pub fn peer_of(event: &Event) -> Option<PeerRef> {
    match event {
        Event::Connect { peer, .. }
        | Event::Receive { peer, .. }
        | Event::Disconnect { peer, .. } => { Some(*peer) }
        Event::Refused { .. } => None,
    }
}

fn is_node(a: Node, b: Node) -> bool {
    match (a, b) {
        (Node::Server, Node::Server) => true,
        (Node::Client(i), Node::Client(k)) => i == k,
        _ => false,
    }
}

fn address_of(client: u16) -> Addr {
    Addr {
        port: FIRST_CLIENT.port.wrapping_add(client),
        ..FIRST_CLIENT
    }
}

/// Whether bodies are those of some of the packets, in order, each whole and once, none flagged RELIABLE left out before the last.
fn come_from(packets: &[Packet], bodies: &[&[u8]]) -> bool {
    let Some((body, bodies_left)) = bodies.split_first() else {
        return true;
    };
    let Some((packet, left)) = packets.split_first() else {
        return false;
    };
    (packet.0 == *body && come_from(left, bodies_left))
        || (packet.1 % 2 == 0 && come_from(left, bodies))
}

/// The packets of a channel among events, those that came unsequenced left out.
fn came<'a>(alloc: Global, channel: u8, events: &[&'a Event]) -> Result<Vec<&'a [u8]>, AllocError> {
    let mut bodies = Vec::new(alloc);
    for event in events.iter() {
        if let Event::Receive { packet, .. } = event
            && packet.channel == channel
            && packet.flags != 2
        {
            bodies.push(packet.body.as_slice())?;
        }
    }
    Ok(bodies)
}

/// Whether events are packets, and then at most one Disconnect.
fn are_last(events: &[&Event]) -> bool {
    for (place, event) in events.iter().enumerate() {
        match event {
            Event::Receive { .. } => {}
            Event::Disconnect { .. } => return place + 1 == events.len(),
            Event::Connect { .. } | Event::Refused { .. } => return false,
        }
    }
    true
}

fn is_one_life(events: &[&Event]) -> bool {
    match events.split_first() {
        None => true,
        Some((Event::Connect { .. }, left)) => are_last(left),
        Some((Event::Disconnect { .. }, left)) => left.is_empty(),
        Some(_) => false,
    }
}

impl Page<'_> {
    fn submitted(&self, node: Node, peer: PeerRef, channel: u8) -> Result<Vec<Packet>, AllocError> {
        let mut packets = Vec::new(self.alloc);
        for (event, answer) in self.events.iter().zip(self.answers.iter()) {
            if let (
                FleetEvent::Submit {
                    node: at,
                    peer: to,
                    channel: on,
                    flags,
                    body,
                },
                Ok(Answer::Done),
            ) = (event, answer)
                && is_node(*at, node)
                && *to == peer
                && *on == channel
            {
                packets.push((body.as_slice(), *flags))?;
            }
        }
        Ok(packets)
    }

    fn taken(&self, node: Node, peer: PeerRef) -> Result<Vec<&Event>, AllocError> {
        let mut events = Vec::new(self.alloc);
        for (event, answer) in self.events.iter().zip(self.answers.iter()) {
            if let (FleetEvent::Take { node: at }, Ok(Answer::Taken(Some((told, _from))))) = (
                event, answer,
            )
                && is_node(*at, node)
                && peer_of(told) == Some(peer)
            {
                events.push(told)?;
            }
        }
        Ok(events)
    }

    /// Whether a stranger's datagram was taken in.
    fn has_guests(&self, node: Node) -> bool {
        for (event, answer) in self.events.iter().zip(self.answers.iter()) {
            if let (
                FleetEvent::Stranger { to, .. },
                Ok(Answer::Received(Received { handled: 1, .. })),
            ) = (event, answer)
                && is_node(*to, node)
            {
                return true;
            }
        }
        false
    }

    /// Whether what the user of one host took of a peer follows what that of another submitted to its own; nothing was where it has none.
    fn is_in_order(
        &self,
        from: Node,
        submitter: Option<PeerRef>,
        taken: &[&Event],
    ) -> Result<bool, AllocError> {
        for channel in 0..CHANNELS {
            let packets = match submitter {
                Some(peer) => self.submitted(from, peer, channel)?,
                None => Vec::new(self.alloc),
            };
            if !come_from(&packets, &came(self.alloc, channel, taken)?) {
                return Ok(false);
            }
        }
        Ok(true)
    }

    /// Whether each connection is in order, and no two share a name. An error for want of memory.
    pub fn is_headline(&self) -> Result<bool, AllocError> {
        for (x, (client, there, here)) in self.connections.iter().enumerate() {
            let client_took = self.taken(Node::Client(*client), *there)?;
            let server_took = match here {
                Some(peer) => self.taken(Node::Server, *peer)?,
                None => Vec::new(self.alloc),
            };
            let is_sound = self.is_in_order(Node::Client(*client), Some(*there), &server_took)?
                && self.is_in_order(Node::Server, *here, &client_took)?
                && is_one_life(&client_took)
                && is_one_life(&server_took);
            let is_apart = self.connections.iter().take(x).all(|other| {
                (other.0 != *client || other.1 != *there) && (other.2 != *here || here.is_none())
            });
            if !is_sound || !is_apart {
                return Ok(false);
            }
        }
        Ok(true)
    }

    /// Whether each event that was taken is told with an address that is its connection's: a peer at a host's address is a connection's, so is
    /// each where no stranger was taken in, and no connection's peer is elsewhere.
    pub fn are_told(&self) -> bool {
        let is_quiet = !self.has_guests(Node::Server);
        for (event, answer) in self.events.iter().zip(self.answers.iter()) {
            let (FleetEvent::Take { node }, Ok(Answer::Taken(Some((told, from))))) = (event, answer)
            else {
                continue;
            };
            let peer = peer_of(told);
            let is_told = match node {
                Node::Server => self.is_told_to_server(peer, *from, is_quiet),
                Node::Client(client) => self.is_told_to_client(*client, peer, *from),
            };
            if !is_told {
                return false;
            }
        }
        true
    }

    fn is_told_to_server(&self, peer: Option<PeerRef>, from: Addr, is_quiet: bool) -> bool {
        let is_host = (0..self.clients).any(|client| from == address_of(client));
        let mut is_one = false;
        for (client, _there, here) in self.connections.iter() {
            if *here == peer {
                if from != address_of(*client) {
                    return false;
                }
                is_one = true;
            }
        }
        is_one || !(is_host || is_quiet)
    }

    fn is_told_to_client(&self, at: u16, peer: Option<PeerRef>, from: Addr) -> bool {
        let is_one = self.connections.iter().any(|(client, there, _here)| *client == at
            && Some(*there) == peer);
        if is_one {
            from == SERVER
        } else {
            from != SERVER && self.has_guests(Node::Client(at))
        }
    }
}
