//! The texts of answers, without the line feed that ends a line.

ghost use Rattle.std.specs.Prelude.{◌≡◌, ◌++◌, codes, IfOk};
ghost use Rattle.std.specs.Fmt.{decimal};
ghost use Rattle.std.specs.String.{string_bytes};
ghost use Rattle.enet_text.specs.Texts.{bytes_text, peer_text};
ghost use Rattle.enet_lab.specs.Answers.{to_text, text_of, shown_of, outcome_shown, outcome_text, share_text, calm_text, rounds_text};
ghost use Rattle.enet_lab.specs.Hosts.{host_text};

use crate::host::{Host, Recipient, host_text, recipient_text};
use enet_codec::Refusal;
use enet_text::{bytes_text, event_text, peer_text, received_text, refusal_text};
use enet_world::{Calm, Share};
use law_network::Answer;
use std::alloc::{AllocError, Global};

/// The text of what a host answered to an event. Where it put a datagram out, `datagram` has its bytes, and `to` is
/// whom it went to, which goes without saying in a world: None there. Of other answers neither says anything. An error where there is no
/// memory for the text.
pub fn answer_text(
    alloc: Global,
    host: Host,
    to: Option<Recipient>,
    datagram: &[u8],
    answer: &Answer,
) -> Result<String, AllocError>
    ensures { IfOk result (λ text. string_bytes text ≡ text_of host to datagram.now answer.now) }
{
    match answer {
        Answer::Peer(peer) => {
            let name = peer_text(alloc, *peer)?;
            format!(in alloc; "peer {name}")
        }
        Answer::Done => String::from_str(alloc, "ok"),
        Answer::Received(received) => received_text(alloc, *received),
        Answer::Sent(None) => String::from_str(alloc, "none"),
        Answer::Sent(Some(k)) => datagram_text(alloc, host, *k, to, datagram),
        Answer::Taken(None) => String::from_str(alloc, "none"),
        Answer::Taken(Some(event)) => event_text(alloc, event),
    }
}

/// The same, or the text of the refusal.
pub fn outcome_text(
    alloc: Global,
    host: Host,
    to: Option<Recipient>,
    datagram: &[u8],
    outcome: &Result<Answer, Refusal>,
) -> Result<String, AllocError>
    ensures { IfOk result (λ text. string_bytes text ≡ outcome_text host to datagram.now outcome.now) }
{
    match outcome {
        Ok(answer) => answer_text(alloc, host, to, datagram, answer),
        Err(refusal) => refusal_text(alloc, *refusal),
    }
}

/// What is shown of an answer in a fleet: all but where the peer is of which an event was taken.
fn shown_of(answer: enet_fleet::Answer) -> Answer
    ensures { result ≡ shown_of answer }
{
    match answer {
        enet_fleet::Answer::Peer(peer) => Answer::Peer(peer),
        enet_fleet::Answer::Done => Answer::Done,
        enet_fleet::Answer::Received(received) => Answer::Received(received),
        enet_fleet::Answer::Sent(number) => Answer::Sent(number),
        enet_fleet::Answer::Taken(None) => Answer::Taken(None),
        enet_fleet::Answer::Taken(Some((event, _from))) => Answer::Taken(Some(event)),
    }
}

/// The same, or the refusal.
pub(crate) fn outcome_shown(outcome: Result<enet_fleet::Answer, Refusal>) -> Result<Answer, Refusal>
    ensures { result ≡ outcome_shown outcome }
{
    match outcome {
        Ok(answer) => Ok(shown_of(answer)),
        Err(refusal) => Err(refusal),
    }
}

/// The text of what came of rounds without losses.
pub fn calm_text(alloc: Global, told: Calm) -> Result<String, AllocError>
    ensures { IfOk result (λ text. string_bytes text ≡ calm_text told) }
{
    let a = share_text(alloc, told.a)?;
    let b = share_text(alloc, told.b)?;
    format!(in alloc; "A {a} B {b}")
}

/// The text of how many rounds are enough, where that is known.
pub fn rounds_text(alloc: Global, needed: Option<u64>) -> Result<String, AllocError>
    ensures { IfOk result (λ text. string_bytes text ≡ rounds_text needed) }
{
    match needed {
        Some(rounds) => format!(in alloc; "{rounds}"),
        None => String::from_str(alloc, "none"),
    }
}

fn share_text(alloc: Global, share: Share) -> Result<String, AllocError>
    ensures { IfOk result (λ text. string_bytes text ≡ share_text share) }
{
    let Share {
        sent,
        refused,
        stopped,
        taken,
        cut_short,
    } = share;
    format!(in alloc;
        "sent {sent} refused {refused} stopped {stopped} taken {taken} cut {cut_short}"
    )
}

fn to_text(alloc: Global, to: Option<Recipient>) -> Result<String, AllocError>
    ensures { IfOk result (λ text. string_bytes text ≡ to_text to) }
{
    let Some(recipient) = to else {
        return Ok(String::new(alloc));
    };
    let name = recipient_text(alloc, recipient)?;
    format!(in alloc; " to {name}")
}

fn datagram_text(
    alloc: Global,
    host: Host,
    k: u64,
    to: Option<Recipient>,
    bytes: &[u8],
) -> Result<String, AllocError>
    ensures { IfOk result (λ text. string_bytes text
        ≡ host_text host ++ codes "#" ++ decimal k ++ to_text to ++ codes " " ++ bytes_text bytes.now) }
{
    let name = host_text(alloc, host)?;
    let to = to_text(alloc, to)?;
    let bytes = bytes_text(alloc, bytes)?;
    format!(in alloc; "{name}#{k}{to} {bytes}")
}
