//! An event with its number.

use enet_codec::Event;

/// An event with its number: the first posted event has 0, each later one the next number.
#[derive(Debug, Drop)]
pub struct Numbered {
    /// 0 to 4,294,967,294.
    pub number: u64,
    pub event: Event,
}
