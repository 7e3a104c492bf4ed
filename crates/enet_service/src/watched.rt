//! A host whose operator is told who came and went, whom it asked for a connection, which orders were refused, and who lacks a packet.

ghost use Rattle.std.specs.Prelude.{◌≡◌};
ghost use Rattle.enet_turn.specs.Calls.{why_of};
ghost use Rattle.enet_turn.specs.Hosting.{AppliesOrder};
ghost use Rattle.enet_submit.specs.declared.order.Order.TheVariants as orders;
ghost use Rattle.enet_service.specs.Lacking.{is_lacked};

use crate::Core;
use crate::sends::Sends;
use enet_codec::{Addr, Config, DisconnectMode, Event, PeerRef, RELIABLE, Refusal, Stop};
use enet_host::HostCore;
use enet_peer::Ending;
use enet_submit::Order;
use std::alloc::Global;
use std::marker::Model;

/// So many notes of refused orders are kept at most until they are looked at, so many of peers that lack a packet, and so many others: so
/// none of these takes the place of another.
const MOST_NOTES: usize = 4_096;

/// What happened at a host, as its operator is told; the `Note` of `enet_wire` is of one call of a wire.
#[derive(Clone, Copy, Debug, PartialEq, Eq)]
pub enum Note {
    /// An order to connect was carried out: this peer asks there, under this connect id, which is the order's `word`. Its Connect event
    /// names the same peer, so of several orders to connect each is known again by its word, where the words differ. Where the other host
    /// doesn't answer no further note comes; the Disconnect event names this peer.
    Asked {
        met: Met,
        connect_id: u32,
    },
    /// This peer connected. `info` is the word that it gave.
    Came {
        met: Met,
        info: u32,
    },
    /// The connection of this peer has ended. `info` is the word of the other end's DISCONNECT, 0 where this end's own was acknowledged
    /// or the peer timed out; `why` tells which.
    Went {
        met: Met,
        info: u32,
        why: Option<Ending>,
    },
    /// An order was refused: one to this peer, or where None stands one to connect.
    Refused {
        peer: Option<PeerRef>,
        why: Refusal,
    },
    /// A reliable packet was refused to this peer because so much waited for it (E9): what the peer gets lacks it. It is noted once a peer.
    Lacks {
        met: Met,
    },
}

/// A peer and where it is.
#[derive(Clone, Copy, Debug, PartialEq, Eq)]
pub struct Met {
    pub peer: PeerRef,
    pub address: Addr,
}

/// A host that notes who came and went, whom it asked, and which orders were refused. Contracts see the host alone.
#[derive(Drop)]
pub struct WatchedHost {
    host: HostCore,
    // The peer of each slot whose connection was told and whose end wasn't.
    met: Vec<Option<Met>>,
    notes: Vec<Note>,
    // By their slots, the last peer of which it was noted that it lacks a packet.
    lacking: Vec<Option<PeerRef>>,
    // How many of the notes are of refused orders, how many of peers that lack a packet, and how many others.
    noted_refusals: usize,
    noted_lacking: usize,
    noted_others: usize,
    // How many of the others found no place.
    missed: u64,
    refused: u64,
    // How many datagrams were stopped so far, and how many orders refused, by the number of the reason.
    stops: [u64; 14],
    refusals: [u64; 10],
    sends: Sends,
}

impl Model for WatchedHost {
    ghost use Rattle.enet_host.specs.Host.{Host};
    ghost use Rattle.std.specs.Coded.{codes};
    ghost use Rattle.enet_inbox.specs.Codes.{inbox_code};

    ghost Value = { Host };

    ghost coded = { Prim.hlevel (codes, inbox_code) };

    ghost view = { λ w. w.host };
}

impl WatchedHost {
    ghost use Rattle.std.specs.Prelude.{◌≡◌, true, false, List, length, IfOk, IfErr, Err};
    ghost use Rattle.enet_codec.specs.Config.{is_in_range};
    ghost use Rattle.enet_host.specs.Host.{all_names};
    ghost use Rattle.enet_host.specs.Calls.{with_send_limit};
    ghost use Rattle.enet_host.specs.Opening.{opened};
    ghost use Rattle.enet_service.specs.ServiceRuns.{PartsFrom};

    /// A host of this configuration, which did nothing yet.
    ///
    /// E8 where a number of the configuration is out of its range, E1 for want of memory.
    pub fn open(alloc: Global, config: Config) -> Result<WatchedHost, Refusal>
        ensures out_of_range { is_in_range config ≡ false → result ≡ Err Refusal.BadConfig }
        ensures in_range { is_in_range config ≡ true → IfErr result (λ why. why ≡ Refusal.Memory) }
        ensures opened { IfOk result (λ watched. watched ≡ opened config) }
    {
        if !config.is_in_range() {
            return Err(Refusal::BadConfig);
        }
        let slots = usize::from(config.peers);
        let mut met = Vec::new(alloc);
        let mut lacking = Vec::new(alloc);
        if met.resize(slots, None).is_err() || lacking.resize(slots, None).is_err() {
            return Err(Refusal::Memory);
        }
        let Ok(sends) = Sends::new(alloc, slots) else {
            return Err(Refusal::Memory);
        };
        Ok(WatchedHost {
            host: HostCore::open(alloc, config)?,
            met,
            notes: Vec::new(alloc),
            lacking,
            noted_refusals: 0,
            noted_lacking: 0,
            noted_others: 0,
            missed: 0,
            refused: 0,
            stops: [0; 14],
            refusals: [0; 10],
            sends,
        })
    }

    /// The host itself.
    pub fn host(&self) -> &HostCore
        ensures { result.now ≡ self.now }
    {
        &self.host
    }

    /// Sets at how much queued or unacknowledged its peers take no further packet ([`HostCore::set_send_limit`]).
    pub fn set_send_limit(&mut self, bytes: u64, commands: u64)
        ensures { self.new ≡ with_send_limit self.old (record { bytes = bytes; commands = commands }) }
    {
        self.host.set_send_limit(bytes, commands);
    }

    /// What was noted since [`WatchedHost::forget`], in order.
    pub fn notes(&self) -> &[Note] {
        self.notes.as_slice()
    }

    /// How many notes since then weren't kept of who was asked, came and went: 4,096 are, if there is memory. So many of refused orders are
    /// kept beside them; [`WatchedHost::refused`] counts all. If there is no place for the note that a peer lacks a packet, the next
    /// refused one that it lacks makes it.
    pub fn missed(&self) -> u64 {
        self.missed
    }

    /// How many orders were refused since then.
    pub fn refused(&self) -> u64 {
        self.refused
    }

    /// How many datagrams were stopped so far for the reason of this number ([`Stop::number`]); 0 where no reason has it.
    pub fn stops(&self, number: u8) -> u64 {
        self.stops.get(usize::from(number)).copied().unwrap_or(0)
    }

    /// How many orders were refused so far for the reason of this number: 1 for E1 to 9 for E9. A host has no other reason; 0 of others.
    pub fn refusals(&self, number: u8) -> u64 {
        self.refusals.get(usize::from(number)).copied().unwrap_or(0)
    }

    /// How often commands with data that ask for an acknowledgement went so far to all peers, those that are gone too; each time that one
    /// goes, first or again. 2^64 - 1 of more.
    pub fn sends(&self) -> u64 {
        self.sends.sends()
    }

    /// How many of these times the command had gone before.
    pub fn resends(&self) -> u64 {
        self.sends.resends()
    }

    /// By their slots, the peers whose connection was told and whose end wasn't.
    pub fn met(&self) -> &[Option<Met>] {
        self.met.as_slice()
    }

    /// Forgets what was noted.
    pub(crate) fn forget(&mut self)
        ensures { self.new ≡ self.old }
    {
        self.notes.clear();
        self.noted_refusals = 0;
        self.noted_lacking = 0;
        self.noted_others = 0;
        self.missed = 0;
        self.refused = 0;
    }

    /// Ends the connection of each peer that the host has, in this way, and answers how many there are: those that begin or end are some,
    /// too, of which the latter aren't asked again.
    pub fn disconnect_all(&mut self, how: DisconnectMode) -> usize
        ensures parts { PartsFrom how self.old (all_names self.old.slots) self.new }
        ensures count { result ≡ length (all_names self.old.slots) }
    {
        let mut parted = 0;
        for slot in 0..self.host.slot_count() {
            if let Some(peer) = self.host.name_in(slot) {
                let _ = self
                    .host
                    .apply_order(Order::Disconnect { peer, how, info: 0 });
                parted += 1;
            }
        }
        parted
    }

    fn count_stop(&mut self, why: Stop)
        ensures { self.new ≡ self.old }
    {
        if let Some(count) = self.stops.get_mut(usize::from(why.number())) {
            *count = count.saturating_add(1);
        }
    }

    fn count_refusal(&mut self, why: Refusal)
        ensures { self.new ≡ self.old }
    {
        self.refused = self.refused.saturating_add(1);
        if let Some(count) = self.refusals.get_mut(number_of(why)) {
            *count = count.saturating_add(1);
        }
    }

    fn note(&mut self, note: Note)
        ensures { self.new ≡ self.old }
    {
        let is_kept = self.noted_others < MOST_NOTES && self.notes.push(note).is_ok();
        if is_kept {
            self.noted_others += 1;
        } else {
            self.missed = self.missed.saturating_add(1);
        }
    }

    fn note_refusal(&mut self, peer: Option<PeerRef>, why: Refusal)
        ensures { self.new ≡ self.old }
    {
        let note = Note::Refused { peer, why };
        if self.noted_refusals < MOST_NOTES && self.notes.push(note).is_ok() {
            self.noted_refusals += 1;
        }
    }

    // Notes once that a peer lacks a packet, if this is such a refusal.
    fn note_lacking(&mut self, peer: PeerRef, flags: u8, why: Refusal)
        ensures { self.new ≡ self.old }
    {
        if !is_lacked(flags, why) || self.noted_lacking >= MOST_NOTES {
            return;
        }
        let Some(address) = self.host.address(peer) else {
            return;
        };
        let Some(place) = self.lacking.get_mut(usize::from(peer.slot)) else {
            return;
        };
        let met = Met { peer, address };
        if *place != Some(peer) && self.notes.push(Note::Lacks { met }).is_ok() {
            *place = Some(peer);
            self.noted_lacking += 1;
        }
    }

    // Asks for a connection, and notes which peer asks.
    fn ask(&mut self, addr: Addr, channels: u8, info: u32, word: u32) -> Result<(), Refusal>
        ensures { AppliesOrder self.old (orders.Connect addr channels info word) (why_of result) self.new }
    {
        let peer = self.host.connect(addr, channels, info, word)?;
        let met = Met {
            peer,
            address: addr,
        };
        self.note(Note::Asked {
            met,
            connect_id: word,
        });
        Ok(())
    }

    // Notes an event that was just told.
    fn note_event(&mut self, event: &Event)
        ensures { self.new ≡ self.old }
    {
        match event {
            Event::Connect { peer, info } => self.note_came(*peer, *info),
            Event::Disconnect { peer, info } => self.note_went(*peer, *info),
            _ => {}
        }
    }

    fn note_came(&mut self, peer: PeerRef, info: u32)
        ensures { self.new ≡ self.old }
    {
        let Some(address) = self.host.address(peer) else {
            return;
        };
        let met = Met { peer, address };
        if let Some(place) = self.met.get_mut(usize::from(peer.slot)) {
            *place = Some(met);
        }
        self.note(Note::Came { met, info });
    }

    fn note_went(&mut self, peer: PeerRef, info: u32)
        ensures { self.new ≡ self.old }
    {
        let Some(place) = self.met.get_mut(usize::from(peer.slot)) else {
            return;
        };
        if let Some(met) = place.take() {
            let why = self.host.ending(met.peer);
            self.note(Note::Went { met, info, why });
        }
    }
}

impl Core for WatchedHost {
    ghost use Rattle.enet_turn.specs.Hosting.{host_calls, untold};

    ghost calls = { host_calls };

    ghost untold = { untold };

    fn tick(&mut self, ms: u32) {
        Core::tick(&mut self.host, ms);
    }

    #[inline(always)]
    fn apply_order(&mut self, order: Order) -> Result<(), Refusal> {
        let peer = peer_of(&order);
        let applied = match order {
            // Most orders are to submit: such a one goes straight to the host.
            Order::Submit {
                peer,
                channel,
                flags,
                body,
            } => match self.host.submit(peer, channel, flags, body) {
                Ok(()) => return Ok(()),
                Err((why, _body)) => {
                    self.note_lacking(peer, flags, why);
                    Err(why)
                }
            },
            Order::Connect {
                addr,
                channels,
                info,
                word,
            } => self.ask(addr, channels, info, word),
            order => self.host.apply_order(order),
        };
        if let Err(why) = applied {
            self.count_refusal(why);
            self.note_refusal(peer, why);
        }
        applied
    }

    fn receive(&mut self, from: Addr, bytes: &[u8]) {
        if let Some(why) = self.host.receive(from, bytes).stop {
            self.count_stop(why);
        }
    }

    fn emit(&mut self, buf: &mut [u8; 4096]) -> Option<(Addr, usize)> {
        let (peer, to, len) = self.host.service(buf)?;
        self.sends.count(&self.host, peer);
        Some((to, len))
    }

    fn next_event(&mut self) -> Option<Event> {
        let event = Core::next_event(&mut self.host)?;
        self.note_event(&event);
        Some(event)
    }
}

// Whether a packet with these flags was refused because its receiver is full (E9), though it is reliable.
fn is_lacked(flags: u8, why: Refusal) -> bool
    ensures { result ≡ is_lacked flags why }
{
    match why {
        Refusal::Full => flags & RELIABLE != 0,
        _ => false,
    }
}

// The number of a reason for which a host refuses an order.
fn number_of(why: Refusal) -> usize {
    match why {
        Refusal::Memory => 1,
        Refusal::NoSuchPeer => 2,
        Refusal::NotConnected => 3,
        Refusal::NoSuchChannel => 4,
        Refusal::TooLarge => 5,
        Refusal::WindowEnd => 6,
        Refusal::NoSlot => 7,
        Refusal::BadConfig => 8,
        Refusal::Full => 9,
        _ => 0,
    }
}

// To whom an order goes; None where it is to connect.
fn peer_of(order: &Order) -> Option<PeerRef> {
    match order {
        Order::Connect { .. } => None,
        Order::Submit { peer, .. } => Some(*peer),
        Order::Disconnect { peer, .. } => Some(*peer),
    }
}
