//! What is asked for.

ghost use Rattle.enet_metrics.specs.Questions.{IsAbout, Asks};

use httparse::Status;
use httparse::spans::{EMPTY_HEADER_SPAN, parse_request};

/// What a request asks for.
#[derive(Clone, Copy, Debug, PartialEq, Eq)]
pub enum Question {
    /// All figures.
    Figures,
    /// Whether the service lives.
    Health,
    /// Something that isn't there.
    Other,
    /// In another way than by GET.
    OtherMethod,
    /// It is no request, or one with more than 32 header fields.
    Unreadable,
}

/// What the request asks for whose head (of HTTP/1.0 or 1.1) stands at the front of these bytes. None where no whole head stands there yet.
pub fn asked(bytes: &[u8]) -> Option<Question>
    ensures { Asks bytes.now result }
{
    let mut headers = [EMPTY_HEADER_SPAN; 32];
    match parse_request(bytes, &mut headers) {
        Ok(Status::Complete(head)) => Some(question_of(head.method.of(bytes), head.path.of(bytes))),
        Ok(Status::Partial) => None,
        Err(_) => Some(Question::Unreadable),
    }
}

fn question_of(method: &[u8], target: &[u8]) -> Question
    ensures { IsAbout result method.now target.now }
{
    if method != b"GET".as_slice() {
        Question::OtherMethod
    } else if target == b"/metrics".as_slice() {
        Question::Figures
    } else if target == b"/healthz".as_slice() {
        Question::Health
    } else {
        Question::Other
    }
}
