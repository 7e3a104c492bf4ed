//! Datagrams that were noted where hosts put them out, in place of a capture.

use crate::timeline::{HostName, Source, Timeline, empty, note};
use enet_codec::Addr;
use enet_text::Datagram;
use std::alloc::{AllocError, Global};

/// A datagram that was noted.
#[derive(Drop)]
pub struct Noted {
    /// When it was put out, in microseconds since the beginning.
    pub at: u64,
    pub from: Addr,
    pub to: Addr,
    pub bytes: Vec<u8>,
    /// What it is called; nothing where its number does.
    pub name: String,
    /// Whether it is known that it was never delivered.
    pub is_lost: bool,
}

/// The timeline of datagrams, in the order in which they stand, between hosts that are called so. An error where there is no memory for it.
pub fn timeline_of(
    alloc: Global,
    source: Source,
    hosts: Vec<HostName>,
    noted: &[Noted],
) -> Result<Timeline, AllocError> {
    let mut timeline = empty(alloc, source);
    timeline.hosts = hosts;
    let mut told = Vec::new(alloc);
    for one in noted {
        let datagram = Datagram {
            from: one.from,
            to: one.to,
            payload: one.bytes.as_slice(),
        };
        note(&mut timeline, &mut told, one.at, datagram, one.is_lost)?;
        timeline
            .names
            .push(String::from_str(alloc, one.name.as_str())?)?;
    }
    Ok(timeline)
}
