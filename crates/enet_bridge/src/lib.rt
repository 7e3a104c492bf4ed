//! Between the service's thread and game threads: where orders come from, where events go, and what a game thread holds ([`OrderSender`],
//! [`EventReceiver`]). The network is a wire of `enet_wire`.
//!
//! Proved: a source gives and a sink takes just what its queue or its list says, in order; what an order sender was asked is, in order,
//! what it submitted and what waits, and none is lost or doubled; with Full, and where there is no event or order, comes a state of the
//! queue, full or empty, that fits all that the seat, the taker or the drain knows. Orders that find none waiting are never refused. A
//! sink in memory hands an event back only where it is full.
//! Only tested, by `check_queues`: that an order sender gets on once there is room, and that a queue with something in it gives it (no clause
//! ties the state that comes with Full or with nothing to the call: a queue that answers Full for good, once its seat has submitted as many
//! orders as it has places, or that never gives anything, meets them all).
//! Neither: that a bell wakes a thread.
#![tactic(auto)]

mod event_receiver;
mod order_sender;
mod sink;
mod source;
mod waiting;

pub use event_receiver::{EventReceiver, TakerBell};
pub use order_sender::OrderSender;
pub use sink::{MemorySink, QueueSink, Sink};
pub use source::{MemorySource, QueueSource, Source};
pub use waiting::Pumped;
