//! The game's thread: it takes the service's events and asks for the answers.

ghost use Rattle.std.specs.Prelude.{IfOk};
ghost use Rattle.example_game.specs.Guessing.{IsAnswer};

use crate::rule::{answer, secret_of};
use bytes::Bytes;
use crossbeam_queue::ArrayQueue;
use enet_codec::{DisconnectMode, Event, Outward, PeerRef, RELIABLE, Refusal};
use enet_service::{EventReceiver, Note, OrderSender, Pumped, Report, Signals, Watch, WatchedHost};
use enet_submit::{Broadcast, Order};
use rand_core::utils::NextWord;
use rand_pcg::Pcg32;
use std::alloc::{AllocError, Global};
use std::collections::VecDeque;
use std::rt::Clock;
use std::str;
use std::sync::Wait;
use std::sync::atomic::Ordering::SeqCst;
use std::time::{Duration, Instant};

/// What players are told where another one has won.
const NEWS: &[u8] = b"somebody won";

/// A player's share: so many guesses in a second are heard.
const SHARE: u32 = 100;

/// What a player is told that is parted from because it was too slow.
const TOO_SLOW: u32 = 1;

/// A client that is connected.
#[derive(Drop)]
struct Player {
    peer: PeerRef,
    secret: u32,
    guesses: u32,
    has_won: bool,
    // How many guesses more are heard in this second.
    left: u32,
}

/// Tells the game's thread which players lack a reliable packet, since so much waits for them.
#[derive(Drop)]
pub struct Slow<'a, R> {
    pub rt: &'a R,
    pub slow: &'a ArrayQueue<PeerRef>,
}

impl<R: Wait> Watch for Slow<'_, R> {
    fn look(&mut self, host: &WatchedHost, _report: Report) {
        for note in host.notes() {
            if let Note::Lacks { met } = note {
                let _ = self.slow.push(self.rt, met.peer);
            }
        }
    }
}

/// A game, with its ends of the two queues.
#[derive(Drop)]
pub struct Game<'a> {
    alloc: Global,
    dice: Pcg32,
    players: Vec<Player>,
    wins: u32,
    // What all are to be told, and found no room yet.
    news: VecDeque<Broadcast>,
    // When the players' shares were last filled.
    filled_at: Option<Instant>,
    // Who is too slow.
    slow: &'a ArrayQueue<PeerRef>,
    sender: OrderSender<'a>,
    receiver: EventReceiver<'a>,
}

impl<'a> Game<'a> {
    /// A game without players, whose secrets are drawn from this seed.
    pub fn new(
        alloc: Global,
        seed: u64,
        slow: &'a ArrayQueue<PeerRef>,
        sender: OrderSender<'a>,
        receiver: EventReceiver<'a>,
    ) -> Game<'a> {
        Game {
            alloc,
            dice: Pcg32::new(seed, 0),
            players: Vec::new(alloc),
            wins: 0,
            news: VecDeque::new(alloc),
            filled_at: None,
            slow,
            sender,
            receiver,
        }
    }

    /// How many winners have gone.
    pub fn wins(&self) -> u32 {
        self.wins
    }

    /// Plays until so many winners have gone, or the service has ended and no event is left; the service's thread is told then. E1 for
    /// want of memory, E10 after 4,294,967,295 orders.
    pub fn play<R: Wait + Clock>(
        &mut self,
        rt: &R,
        signals: &Signals,
        wins: u32,
    ) -> Result<(), Refusal> {
        let played = self.play_on(rt, signals, wins);
        signals.leave();
        played
    }

    fn play_on<R: Wait + Clock>(
        &mut self,
        rt: &R,
        signals: &Signals,
        wins: u32,
    ) -> Result<(), Refusal> {
        for _ in rt.forever() {
            let over = signals.ended.load(SeqCst);
            self.fill_shares(rt);
            self.part_from_slow(rt)?;
            self.submit(rt)?;
            match self.receiver.take(rt) {
                Some(numbered) => self.note(&numbered.event)?,
                None if over => return Ok(()),
                None => signals.bell.wait_a_moment(rt),
            }
            if self.wins >= wins {
                return Ok(());
            }
        }
        unreachable!()
    }

    // Each second the players have their shares anew; always where the clock can't be read.
    fn fill_shares<R: Clock>(&mut self, rt: &R) {
        let now = Instant::now(rt).ok();
        if let (Some(now), Some(filled_at)) = (now, self.filled_at) {
            if now.saturating_duration_since(filled_at) < Duration::from_secs(1) {
                return;
            }
        }
        self.filled_at = now;
        for player in self.players.iter_mut() {
            player.left = SHARE;
        }
    }

    // A player that lacks a reliable packet is parted from: no later one may come to it without that.
    fn part_from_slow<R: Wait>(&mut self, rt: &R) -> Result<(), Refusal> {
        let Some(peer) = self.slow.pop(rt) else {
            return Ok(());
        };
        self.sender.ask(Order::Disconnect {
            peer,
            how: DisconnectMode::Ask,
            info: TOO_SLOW,
        })
    }

    // Hands the service what was asked for, and wakes it. What finds no room (E9) waits, and events are taken on: a thread that waited for
    // room here could wait for ever, since the service takes no orders while it has no room for a refusal.
    fn submit<R: Wait>(&mut self, rt: &R) -> Result<(), Refusal> {
        if self.sender.is_empty() && self.news.is_empty() {
            return Ok(());
        }
        let submitted = match self.sender.submit(rt) {
            Pumped::All => self.spread_news(rt),
            Pumped::Full => Ok(()),
            Pumped::Spent => Err(Refusal::SeatSpent),
        };
        self.sender.ring();
        submitted
    }

    // What all are to be told takes one place of the queue, whatever their number.
    fn spread_news<R: Wait>(&mut self, rt: &R) -> Result<(), Refusal> {
        while let Some(news) = self.news.pop_front() {
            match self.sender.submit_each(rt, news) {
                Ok(()) => {}
                Err((Refusal::Full, news)) => {
                    self.news.push_front_reserved(news);
                    return Ok(());
                }
                Err((why, _)) => return Err(why),
            }
        }
        Ok(())
    }

    fn note(&mut self, event: &Event) -> Result<(), Refusal> {
        match event {
            Event::Connect { peer, .. } => self.welcome(*peer),
            Event::Receive { peer, packet } => match guess_in(packet.body.as_slice()) {
                Some(guess) => self.judge(*peer, guess),
                None => Ok(()),
            },
            Event::Disconnect { peer, .. } => {
                self.part_from(*peer);
                Ok(())
            }
            // Its player has gone, or so much waits for it (E9): who lacks a reliable packet then is in `slow`.
            Event::Refused { .. } => Ok(()),
        }
    }

    fn welcome(&mut self, peer: PeerRef) -> Result<(), Refusal> {
        let player = Player {
            peer,
            secret: secret_of(self.dice.next_word()),
            guesses: 0,
            has_won: false,
            left: SHARE,
        };
        self.players.push(player).map_err(|_| Refusal::Memory)
    }

    // Answers a guess, if it is within the player's share. Who is right is parted from, once the answer has come.
    fn judge(&mut self, peer: PeerRef, guess: u32) -> Result<(), Refusal> {
        let Some(player) = self.players.iter_mut().find(|player| player.peer == peer) else {
            return Ok(());
        };
        if player.has_won || player.left == 0 {
            return Ok(());
        }
        player.left -= 1;
        player.guesses = player.guesses.saturating_add(1);
        player.has_won = guess == player.secret;
        let won = player.has_won;
        let body = match text(self.alloc, player, guess) {
            Ok(body) => body,
            Err(_) => return Err(Refusal::Memory),
        };
        self.sender.ask(Order::Submit {
            peer,
            channel: 0,
            flags: RELIABLE,
            body,
        })?;
        if !won {
            return Ok(());
        }
        self.tell_others(peer)?;
        self.sender.ask(Order::Disconnect {
            peer,
            how: DisconnectMode::Later,
            info: 0,
        })
    }

    // Tells all but the winner that somebody won, on channel 1.
    fn tell_others(&mut self, winner: PeerRef) -> Result<(), Refusal> {
        let packet = Outward {
            except: Some(winner),
            channel: 1,
            flags: RELIABLE,
            body: Bytes::from_static(NEWS),
        };
        let Ok(packets) = Vec::from_array(self.alloc, [packet]) else {
            return Err(Refusal::Memory);
        };
        let news = Broadcast::new(self.all_peers()?, packets)?;
        self.news.push_back(news).map_err(|_| Refusal::Memory)
    }

    fn all_peers(&self) -> Result<Vec<PeerRef>, Refusal> {
        let mut peers = Vec::new(self.alloc);
        for player in &self.players {
            if peers.push(player.peer).is_err() {
                return Err(Refusal::Memory);
            }
        }
        Ok(peers)
    }

    fn part_from(&mut self, peer: PeerRef) {
        if self
            .players
            .iter()
            .any(|player| player.peer == peer && player.has_won)
        {
            self.wins = self.wins.saturating_add(1);
        }
        self.players.retain(|player| player.peer != peer);
    }
}

// What a player is answered to a guess, which is counted already.
fn text(alloc: Global, player: &Player, guess: u32) -> Result<Bytes, AllocError>
    ensures { IfOk result (IsAnswer player.now.secret guess player.now.guesses) }
{
    Bytes::from_string(answer(alloc, player.secret, guess, player.guesses)?)
}

fn guess_in(body: &[u8]) -> Option<u32> {
    str::from_utf8(body).ok()?.trim().parse::<u32>().ok()
}
