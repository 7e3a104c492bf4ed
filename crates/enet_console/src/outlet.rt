//! Lines for the operator, none of which holds up the service.

ghost use Rattle.std.specs.Prelude.{◌≡◌, IsErr};
ghost use Rattle.enet_console.specs.Outlets.{misses, TakesLine, Settles};
ghost use Rattle.enet_console.specs.Private.Outlets.{counted, settled, takes_lines};

use libc::net::{POLLOUT, poll};
use libc::types::pollfd;
use libc::{STDERR_FILENO, STDOUT_FILENO};
use std::alloc::AllocError;

/// Where lines go.
#[derive(Clone, Copy, PartialEq, Eq)]
pub enum Stream {
    /// Standard output.
    Output,
    /// Standard error.
    Error,
}

/// A stream to which lines are written only where it takes one at once. Of the others it is told later how many there were; one that
/// the system fails to write, as where nobody reads any more or a disk is full, is among them, and ends nothing.
#[derive(Drop)]
pub struct Outlet {
    stream: Stream,
    missed: u64,
}

impl Outlet {
    /// To this stream, with no line missed yet.
    pub fn new(stream: Stream) -> Outlet
        ensures { result ≡ record { stream = stream; missed = 0 } }
    {
        Outlet { stream, missed: 0 }
    }

    /// Writes a line, with its end, of at most 2,000 bytes, or counts it.
    pub fn line<R: Print + Eprint>(&mut self, rt: &R, line: Result<String, AllocError>)
        ensures line { TakesLine self.old self.new }
        ensures none { IsErr line → self.new ≡ misses 1 self.old }
    {
        match line {
            Ok(line) if self.is_ready() => {
                let is_told = self.tell_missed(rt);
                let is_written = is_told && self.write(rt, line.as_str());
                self.count(is_told, is_written);
            }
            _ => self.miss(1),
        }
    }

    /// So many lines were not written.
    pub fn miss(&mut self, lines: u64)
        ensures { self.new ≡ misses lines self.old }
    {
        self.missed = self.missed.saturating_add(lines);
    }

    /// Tells how many lines weren't written since that was last told, if the stream takes it.
    pub fn settle<R: Print + Eprint>(&mut self, rt: &R)
        ensures { Settles self.old self.new }
    {
        if self.missed > 0 && self.is_ready() {
            let is_told = self.tell_missed(rt);
            self.settle_if(is_told);
        }
    }

    // It was told how many lines weren't written, or not; and where it was, a line was written behind that, or not.
    fn count(&mut self, is_told: bool, is_written: bool)
        ensures { self.new ≡ counted is_told is_written self.old }
    {
        self.settle_if(is_told);
        if !is_written {
            self.miss(1);
        }
    }

    // Where it was told how many lines weren't written, none is left to be told.
    fn settle_if(&mut self, is_told: bool)
        ensures { self.new ≡ settled is_told self.old }
    {
        if is_told {
            self.missed = 0;
        }
    }

    // Tells how many lines weren't written, if some weren't. False where the system fails to write that.
    fn tell_missed<R: Print + Eprint>(&self, rt: &R) -> bool {
        let missed = self.missed;
        if missed == 0 {
            return true;
        }
        let told = match self.stream {
            Stream::Output => println!(rt; "{missed} more"),
            Stream::Error => eprintln!(rt; "{missed} more"),
        };
        told.is_ok()
    }

    // False where the system fails to write it.
    fn write<R: Print + Eprint>(&self, rt: &R, line: &str) -> bool {
        let written = match self.stream {
            Stream::Output => print!(rt; "{line}"),
            Stream::Error => eprint!(rt; "{line}"),
        };
        written.is_ok()
    }

    // Whether a line can be written without a wait. A pipe says so where it takes 4,096 bytes.
    fn is_ready(&self) -> bool {
        let fd = match self.stream {
            Stream::Output => STDOUT_FILENO,
            Stream::Error => STDERR_FILENO,
        };
        let mut asked = [pollfd {
            fd,
            events: POLLOUT,
            revents: 0,
        }];
        let answer = poll(&mut asked, 0);
        takes_lines(answer, asked[0].revents)
    }
}

// Whether a stream of which `poll` answered this takes a line: it does where nothing else is said of it, as that nobody reads it.
fn takes_lines(answer: i32, said: i16) -> bool
    ensures { result ≡ takes_lines answer said }
{
    answer > 0 && said == POLLOUT
}
