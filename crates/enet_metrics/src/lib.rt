//! What a server tells of itself to a monitor: what whoever watches the service notes ([`Reading`]), figures in which that thread stores it
//! ([`Figures`]), and a page over HTTP/1.1 from a thread of its own ([`Pages`]), in the text format of Prometheus.
//!
//! Proved: what a request asks for, by the grammar of its head (`asked`: `Asks`), and what that is answered, byte for byte (`answer`:
//! `answer_text`), where a reading of the figures has these numbers (`Reading::text`: `reading_text`), and that it is called alive only where
//! its age is known (`Reading::is_alive`); what a count or a round trip makes of what was noted (`Reading::stopped`, `refused`, `trip`:
//! `with_stops`, `with_refusals`, `with_trip`), in which bucket (`bucket_of`), and which of the numbers that are stored is which figure
//! (`standing_in`); which of those that haven't asked yet gives way where there is no more room (`gives_way`); of the rest that it is safe, and
//! that each call but the two that wait returns.
//! Only tested, by scripts/check/check-metrics.sh: what the page says, beside what clients counted; that a client which says nothing, or
//! reads nothing, holds up neither another one nor the server, nor do many at another address; that `/healthz` tells of a service that
//! doesn't look. Neither: that what is read (`Figures::read`) was stored (`Figures::look`), and in its place: cells that threads share say
//! nothing of what is in them. Nor that the numbers of one page are of one moment.
#![tactic(auto)]

mod answering;
mod asking;
mod client;
mod crowds;
mod figures;
mod noting;
mod pages;
mod reading;
mod text;
mod trips;

pub use answering::answer;
pub use asking::{Question, asked};
pub use crowds::gives_way;
pub use figures::Figures;
pub use pages::Pages;
pub use reading::{Reading, Standing};
pub use trips::{Trips, bucket_of};
