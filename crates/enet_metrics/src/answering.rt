//! What is answered.

ghost use Rattle.std.specs.Prelude.{◌≡◌, IfOk};
ghost use Rattle.std.specs.String.{string_bytes};
ghost use Rattle.enet_metrics.specs.Answers.{answer_text, page_text};

use crate::asking::Question;
use crate::reading::Reading;
use std::alloc::{AllocError, Global};

/// What is told of a service that isn't known to live.
const HUNG: &str = "the service hangs, or its clock cannot be read\n";

/// The answer, by HTTP/1.1, where this is told of the service: 200 with all figures, 200 or 503 by whether it is known to live, or why
/// nothing is told (404, 405, 400). An error for want of memory.
pub fn answer(alloc: Global, question: Question, reading: &Reading) -> Result<String, AllocError>
    ensures { IfOk result (λ text. string_bytes text ≡ answer_text question reading.now) }
{
    match question {
        Question::Figures => page(alloc, "200 OK", reading.text(alloc)?.as_str()),
        Question::Health if reading.is_alive() => page(alloc, "200 OK", "ok\n"),
        Question::Health => page(alloc, "503 Service Unavailable", HUNG),
        Question::Other => page(alloc, "404 Not Found", "here are /metrics and /healthz\n"),
        Question::OtherMethod => page(alloc, "405 Method Not Allowed", "GET alone\n"),
        Question::Unreadable => page(alloc, "400 Bad Request", "no request\n"),
    }
}

fn page(alloc: Global, status: &str, body: &str) -> Result<String, AllocError>
    ensures { IfOk result (λ text. string_bytes text ≡ page_text status.now body.now) }
{
    let len = body.len();
    format!(in alloc;
        "HTTP/1.1 {status}\r\nContent-Type: text/plain; version=0.0.4; charset=utf-8\r\nContent-Length: {len}\r\nConnection: close\r\n\r\n{body}"
    )
}
