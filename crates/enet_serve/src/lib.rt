//! A server over the service, one of whose threads takes turns and another relays chat, or one does both.
//!
//! # What it is for
//!
//! - [`ChatServer`] is what `serve` runs: its socket behind a guard, its host, and the relay, for one run after another.
//!
//! # Proved
//!
//! One call of [`ChatServer::serve`] or [`ChatServer::serve_alone`] (`Serves`):
//! - It is turns of the service, each in the order of its kind (in one thread a turn tells events and takes orders between receiving and
//!   sending), as many as were asked for where a number was, in none of which the wire failed, and its report their sums.
//! - Each event that the turns told was expanded by the rule of the relay, once and in order, or waits for the next call. Each order that the
//!   events gave was handed to a turn, once and for every receiver in order, or waits, too. So nothing is lost or doubled on the way, nor from
//!   one call to the next.
//! - Events wait only where orders do, and where more orders were handed to the turns or wait than the queue has places, in one thread 256 at
//!   least.
//! - Where it ends early, E14 says that the wire failed, and only E14 does. Then it is the turns until that, and the wire told just what they
//!   did. In one thread each event that they told was expanded or waits, and each order that those gave was handed to a turn or waits
//!   (`IsCutOffAlone`). In two threads so it is unless the queues weren't settled after it: then nothing is kept, and the server says why
//!   (`IsCutOffBeside`, [`ChatServer::unsettled`]). It has no more turns than were asked for.
//! - No run begins where the queues' places are out of range. After a call that was refused for another reason than E14 nothing else is said
//!   of the server.
//!
//! Besides:
//! - A server opens at the address of its settings, with their standard host and their limit on what is sent, behind a guard with their
//!   rules, with nothing waiting ([`ChatServer::open`]). [`ChatServer::ban`] and [`ChatServer::unban`] change who is banned, and nothing else
//!   does: no run, whatever ends it, and no leave-taking (`ruling`). [`ChatServer::order`] changes the orders that wait, and nothing else.
//! - Where it takes leave (`TakesLeave`), its turns are given no order, and between them, once at least, it parts from every peer that its host
//!   has then, behind all that was sent, but for a last time. After each parting comes a turn, unless the wire failed, and the wire told just
//!   what these turns did. What the relay keeps is as before.
//!
//! # Only tested, or neither
//!
//! - By scripts/check/check-admission.sh: whom the guard of a server and its limit of an address let in, and what becomes of clients
//!   beyond their share.
//! - By scripts/check/check-rows.sh and scripts/check/check-clients.sh: what real clients get, that a call ends, that the system puts the
//!   server at the address that it is asked for, what it says where it can't, that the queues settle (no E16), that the server ends once its
//!   relay has, that its clients are told of its end, and that the threads end.
//! - Neither: what a network gives, and when; when E1, E10 and E16 come; that in one thread the service doesn't sleep while orders wait; what
//!   `gauge` shows and `watch` is told; when the guard is told who is connected.
//! - Of leave-taking: from which clients leave is taken, and when it gives them up. That the clock alone does that can't be said: the kit ties
//!   no reading of the clock to anything that a contract could name.
//! - Which datagrams the guard passes over while a server serves or takes leave: the turns say of the wire only what it told, how often it
//!   failed, and that the guard's rules and bans stay. What the socket told is what the guard told, and the datagrams that this passed over
//!   (`TellsTheRest` of `enet_guard`).
#![tactic(auto)]

mod alone;
mod leaving;
mod lone_turn;
mod registrar;
mod server;
mod threads;

pub use enet_chat::{Gauge, TOO_LOUD, TOO_SLOW, end_of_loud, end_of_slow};
pub use enet_guard::{Dropped, PassedOver, Rules};
pub use enet_service::{Met, Note, RunLength, SendLimit, Unopened, Unwatched, Watch, WatchedHost};
pub use server::{ChatServer, Settings};
