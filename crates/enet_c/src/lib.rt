//! The host of ENet 1.3 as a static library for C: `enet_host`, behind a handle.
//!
//! A handle is an object of the caller's memory, at its start all zero bytes. Each call takes out what it holds, makes one call
//! of the host, and puts it back; a closed handle is answered by 32. Refusals are the numbers of their names, and results go
//! into the caller's memory. There is no state but the handles'. C calls these functions by way of `c/gofnjerta.c`, which tests
//! pointers and lengths: here each pointer is a reference.
//!
//! Proved: each call is safe and returns, whatever C passes by value, and answers and leaves what the host's call of that name does, by the
//! host's own definitions (`Crosses`); with a closed handle, each but `open` writes nothing to the caller's memory. Calls that name a peer:
//! `Settles` and `SettlesWithMemory` (`on_named`). `set_secret` is `SetsSecret` (`with_secret`), `set_send_limit` `SetsSendLimit`
//! (`with_send_limit`). `connect` is `Asks` (the host's `Connects`), `receive` is `TakesIn` (`Receives`), `service` is `PutsOut` (`Serves`)
//! and leaves the rest of the buffer alone, `next_event` is `Tells` (`Takes`) and keeps the body of the packet that it told, which `body`
//! copies (`Copies`); `submit` is `SubmitsTo` (`unless_full`, by the host's limit), and answers 1 only where nothing else is refused, and
//! `throttle_configure` only where the host may want memory to tell the peer (`wants_room_in`); `broadcast` is the host's `submit_each`
//! with one packet (`Broadcasts`), and `broadcast_each` its submissions one after another, each with its answer (`SubmitsInTurn`); `peer`,
//! `line`, `traffic`, `allowance` and `totals_of` show what the host holds, `ending` why a connection ended
//! (`ending_named`), `slots` and `sent_again` what it counts, `held` how much that is of what others sent (within what its settings allow),
//! and `due_in` when time brings it something (`IsDueIn`); `open` is `Begins` (`Opens`), and `close` leaves the handle closed. A name that
//! `error_name` or `stop_name` gives is that of the refusal or stop with this number.
//! `compress` and `decompress` are the range coder's (`code_of`, `body_of`), and know no handle.
//! Only tested, by `c/tests`: that C's structures lie as these do, and that calls succeed with ample memory. Neither: what C does with its
//! memory between calls.
#![tactic(auto)]

mod held;
mod hosting;
mod loose;
mod names;
mod numbers;
mod opening;
mod own;
mod packing;
mod readings;
mod settings;
mod shapes;
mod telling;
mod traffic;

pub use held::Held;
pub use names::{gofnjerta_core_error_name, gofnjerta_core_stop_name};
pub use opening::{gofnjerta_core_close, gofnjerta_core_open, gofnjerta_core_standard};
pub use own::{Handle, Own};
pub use packing::{gofnjerta_core_compress, gofnjerta_core_decompress};
pub use readings::{
    gofnjerta_core_allowance, gofnjerta_core_due_in, gofnjerta_core_ending, gofnjerta_core_held,
    gofnjerta_core_line, gofnjerta_core_peer, gofnjerta_core_sent_again, gofnjerta_core_slots,
    gofnjerta_core_totals_of, gofnjerta_core_traffic,
};
pub use settings::{
    gofnjerta_core_disconnect, gofnjerta_core_disconnect_later, gofnjerta_core_disconnect_now,
    gofnjerta_core_give_way, gofnjerta_core_set_bandwidth, gofnjerta_core_set_most,
    gofnjerta_core_set_ping_interval, gofnjerta_core_set_secret, gofnjerta_core_set_send_limit,
    gofnjerta_core_set_timeout, gofnjerta_core_throttle_configure,
};
pub use shapes::{
    CoreAddress, CoreConfig, CoreDatagram, CoreEvent, CoreHeld, CoreLine, CorePeer, CoreReading,
    CoreReceived, CoreSecret, CoreSlots, CoreTotals, CoreTraffic,
};
pub use telling::{gofnjerta_core_body, gofnjerta_core_next_event};
pub use traffic::{
    gofnjerta_core_broadcast, gofnjerta_core_broadcast_each, gofnjerta_core_connect,
    gofnjerta_core_receive, gofnjerta_core_service, gofnjerta_core_stage, gofnjerta_core_submit,
    gofnjerta_core_submit_staged, gofnjerta_core_tick,
};
