//! Standard input, read without waiting.

ghost use Rattle.std.specs.Prelude.{◌≡◌, List, ℕ, []};
ghost use Rattle.enet_console.specs.Inputs.{rest};
ghost use Rattle.enet_console.specs.Private.Inputs.{Gives, Takes, IsUntouched, what_came};

use libc::net::{POLLIN, poll};
use libc::types::pollfd;
use libc::{STDIN_FILENO, read};

/// So many bytes are read at once.
const CHUNK: usize = 256;

/// What a read of it gave.
#[derive(Clone, Copy)]
enum Came {
    /// So many bytes.
    Bytes(usize),
    /// Nothing comes any more.
    End,
    /// Nothing now: the read failed, as where a signal or another reader came first.
    Nothing,
}

/// Standard input, read without waiting. Its end says nothing.
#[derive(Drop)]
pub(crate) struct Input {
    chunk: [u8; CHUNK],
    // What was read and not looked at.
    from: usize,
    to: usize,
    is_over: bool,
}

impl Input {
    /// Of which nothing was read yet.
    pub(crate) fn new() -> Input
        ensures { rest result ≡ [] }
    {
        Input {
            chunk: [0; CHUNK],
            from: 0,
            to: 0,
            is_over: false,
        }
    }

    /// The next byte that is there; None where none is there yet.
    pub(crate) fn next(&mut self) -> Option<u8>
        ensures { Gives self.old self.new result }
    {
        if self.from < self.to {
            return self.take();
        }
        self.fill()?;
        self.take()
    }

    // The next byte that was read.
    fn take(&mut self) -> Option<u8>
        ensures { Takes self.old self.new result }
    {
        if self.from >= CHUNK {
            return None;
        }
        let byte = self.chunk[self.from];
        self.from += 1;
        Some(byte)
    }

    // Reads what is there, if something is.
    fn fill(&mut self) -> Option<()>
        ensures none { result ≡ None → IsUntouched self.old self.new }
        ensures some { result ≡ Some tt → self.new.from ≡ 0 }
    {
        if self.is_over || !is_readable() {
            return None;
        }
        match what_came(read(STDIN_FILENO, &mut self.chunk)) {
            Came::Bytes(len) => {
                self.from = 0;
                self.to = len;
                Some(())
            }
            Came::End => {
                self.is_over = true;
                None
            }
            Came::Nothing => None,
        }
    }
}

// What a read gave that answered this.
fn what_came(answer: isize) -> Came
    ensures { result ≡ what_came answer }
{
    match usize::try_from(answer) {
        Ok(0) => Came::End,
        Ok(len) => Came::Bytes(len),
        Err(_) => Came::Nothing,
    }
}

// Whether a read of standard input would not wait.
fn is_readable() -> bool {
    let mut asked = [pollfd {
        fd: STDIN_FILENO,
        events: POLLIN,
        revents: 0,
    }];
    poll(&mut asked, 0) > 0
}
