//! What the looks of arrows and the marks on them say.

use enet_captured::Source;

/// What the looks of arrows say: where each stands, its class and its words.
pub(crate) const LEGEND: [(u64, &str, &str); 8] = [
    (16, "data", "reliable"),
    (120, "plain", "unreliable, unsequenced"),
    (306, "control", "connection"),
    (414, "ping", "ping"),
    (484, "ack", "acknowledgements"),
    (640, "unread", "can't be read"),
    (768, "data again", "sent again"),
    (880, "data twice", "the same datagram, seen before"),
];

/// What the marks say.
pub(crate) const NONE_SEEN: &str = "no acknowledgement seen";

pub(crate) const TOO_EARLY: &str = "sent again too early";

pub(crate) const IN_VAIN: &str =
    "what it acknowledges was sent again all the same: lost or late behind this point, or not yet read";

pub(crate) const LOST: &str = "never delivered";

/// How the picture is to be read, by whence it is.
pub(crate) fn help_of(source: Source) -> &'static str {
    match source {
        Source::Capture => OF_A_CAPTURE,
        Source::Script => OF_A_SCRIPT,
        Source::Sockets => OF_SOCKETS,
    }
}

const OF_A_CAPTURE: &str =
    "Time runs down, in seconds since the first packet; a pause is cut short where its length stands. At an arrow: what its commands are, channel:number (bytes).
Beside each end: the reliable numbers it sent (c is the channel of the connection itself), each from its sending to its acknowledgement: orange went again, of red no acknowledgement was seen.
No acknowledgement seen, and sent again: it was lost, refused, or its acknowledgement was lost on the far side of the capture. Whatever isn't sent again has no mark.
";

const OF_A_SCRIPT: &str =
    "Time runs down, in seconds of the clock that has gone on furthest; a pause is cut short where its length stands. At an arrow: the datagram's name, and its commands, channel:number (bytes).
Beside each end: the reliable numbers it sent (c is the channel of the connection itself), each from its sending to its acknowledgement: orange went again, of red no acknowledgement was seen.
Never delivered: lost, or still under way at the end. No acknowledgement seen: delivered and sent again, and no acknowledgement of it was put out.
";

const OF_SOCKETS: &str =
    "Time runs down, in seconds since the demonstration began; a pause is cut short where its length stands. At an arrow: what its commands are, channel:number (bytes).
Beside each end: the reliable numbers it sent (c is the channel of the connection itself), each from its sending to its acknowledgement: orange went again, of red no acknowledgement was seen.
Never delivered: the system didn't take it of the client. No acknowledgement seen, and sent again: it was lost or refused, or its acknowledgement was lost. Whatever isn't sent again has no mark.
A client's port is chosen by the system: in its place stands the client's number.
";
