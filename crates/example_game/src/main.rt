//! A server that has a number guessed, with its rule in a thread beside the service, to begin a game of your own with (docs/USING.md).
//!
//! `example_game PORT SEED WINS SECONDS` serves clients at 127.0.0.1. Each is to guess a number from 1 to 1,000, which is drawn from the
//! seed: it sends guesses as text, reliably on channel 0, and is answered `lower`, `higher` or, after its N-th guess, `right after N`. The
//! program ends once so many have won and gone, or so many seconds have passed; it tells none who is still there. Of a player 100 guesses a
//! second are heard, and one for whom 65,536 bytes or 1,024 packets wait when a reliable packet comes is parted from, with the number 1.
//!
//! Proved: that it is safe, which number is to be guessed for a drawn word (`secret_of`), and the text that answers a guess, for the
//! secret and the count of the player that it is made for (`IsAnswer`, by `text`). Only tested, by its stored run and
//! scripts/check/check-clients.sh: that guesses are counted and answered to the players who made them, and that it ends. Neither: when the
//! threads run.
#![tactic(auto)]

ghost use Rattle.enet_service.specs.ServiceRuns.{AreNew};

mod game;
mod rule;

use crossbeam_queue::ArrayQueue;
use enet_codec::{Addr, Config, Refusal};
use enet_service::{
    Bell, BoundService, Ends, EventReceiver, MioWire, OrderSender, QueueSink, QueueSource, Queues,
    RunLength, SendLimit, Shared, Signals, beside_turns, system_secret,
};
use game::{Game, Slow};
use std::env;
use std::net::Net;
use std::process::ExitCode;
use std::rt::{Clock, Env};
use std::sync::Wait;
use std::thread::Threads;
use std::time::Duration;

/// 127.0.0.1.
const LOCALHOST: u32 = 0x7f00_0001;

const CLIENTS: u16 = 32;

const CHANNELS: u8 = 2;

/// How many places each of the two queues has.
const CAPACITY: u32 = 1_024;

/// A player is full where so many bytes or packets wait for it.
const LIMIT: SendLimit = SendLimit {
    bytes: 65_536,
    commands: 1_024,
};

/// What the program was told.
#[derive(Clone, Copy)]
struct Settings {
    at: Addr,
    seed: u64,
    wins: u32,
    time: Duration,
}

fn settings_of<R: Env + AllocGlobal>(rt: &R) -> Option<Settings> {
    let words: Vec<String> = env::args(rt).ok()?.collect(rt.alloc()).ok()?;
    settings_in(&words)
}

fn settings_in(words: &[String]) -> Option<Settings> {
    Some(Settings {
        at: Addr {
            ip: LOCALHOST,
            port: words.get(1)?.parse::<u16>().ok()?,
        },
        seed: words.get(2)?.parse::<u64>().ok()?,
        wins: words.get(3)?.parse::<u32>().ok()?,
        time: Duration::from_secs(words.get(4)?.parse::<u64>().ok()?),
    })
}

/// Serves, with a secret where the system gives one, and tells how many have won.
fn serve<R>(rt: &R, settings: Settings) -> Result<u32, Refusal>
where
    R: Threads + Wait + Net + Clock + Sync + AllocGlobal,
{
    let wire = MioWire::bind(rt, settings.at)?;
    let bell = wire.bell()?;
    let mut config = Config::standard(CLIENTS, CHANNELS);
    config.generations = u32::MAX;
    config.secret = system_secret();
    let mut bound = BoundService::open(rt.alloc(), wire, config)?;
    bound.set_send_limit(Some(LIMIT));
    let won = begin(rt, &mut bound, &bell, settings);
    bound.close();
    won
}

/// Opens the queues between the service and the game, and plays it.
fn begin<R: Threads + Wait + Clock + Sync + AllocGlobal>(
    rt: &R,
    bound: &mut BoundService<MioWire>,
    bell: &Bell,
    settings: Settings,
) -> Result<u32, Refusal> {
    let Queues {
        orders,
        events,
        ends,
    } = Queues::open(rt.alloc(), CAPACITY)?;
    let shared = Shared {
        queue: &orders,
        events: &events,
        bell,
        signals: &Signals::new(),
    };
    play(rt, bound, shared, ends, settings)
}

/// Plays the game beside the service, between these queues.
fn play<R: Threads + Wait + Clock + Sync + AllocGlobal>(
    rt: &R,
    bound: &mut BoundService<MioWire>,
    shared: Shared<'_>,
    ends: Ends,
    settings: Settings,
) -> Result<u32, Refusal>
    requires { AreNew shared.queue.now shared.events.now ends }
{
    let Shared {
        queue,
        events,
        bell,
        signals,
    } = shared;
    let Ok(slow) = ArrayQueue::new(rt.alloc(), usize::from(CLIENTS)) else {
        return Err(Refusal::Memory);
    };
    let sender = OrderSender::new(rt.alloc(), queue, ends.seat, bell);
    let receiver = EventReceiver::new(events, ends.taker);
    let mut game = Game::new(rt.alloc(), settings.seed, &slow, sender, receiver);
    let mut source = QueueSource::new(queue, ends.drain, bell);
    let mut sink = QueueSink::new(events, ends.poster, &signals.bell);
    let (played, served) = beside_turns(
        rt,
        bound,
        &mut source,
        &mut sink,
        RunLength::Time(settings.time),
        signals,
        &mut Slow { rt, slow: &slow },
        &mut || -> Result<(), Refusal> { game.play(rt, signals, settings.wins) },
    );
    served.and(played)?;
    Ok(game.wins())
}

fn main(rt: HostRuntime) -> ExitCode {
    let Some(settings) = settings_of(&rt) else {
        let _ = eprintln!(&rt; "PORT SEED WINS SECONDS");
        return ExitCode::from(2);
    };
    match serve(&rt, settings) {
        Ok(wins) => {
            let _ = println!(&rt; "{wins} won");
            ExitCode::SUCCESS
        }
        Err(why) => {
            let _ = eprintln!(&rt; "{why}");
            ExitCode::FAILURE
        }
    }
}
