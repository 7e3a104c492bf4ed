//! How the guard in front of a server's host is told who is connected.

use enet_guard::{Register, Seated};
use enet_service::{Met, Note, Report, Watch, WatchedHost};
use std::alloc::Global;
use std::sync::Arc;

/// Tells the guard who is connected, and passes on what whoever watches is told.
#[derive(Drop)]
pub(crate) struct Registrar<'a, W> {
    pub(crate) register: Arc<Register, Global>,
    pub(crate) watch: &'a mut W,
}

impl<W: Watch> Watch for Registrar<'_, W> {
    fn look(&mut self, host: &WatchedHost, report: Report) {
        if host.missed() > 0 || host.notes().iter().any(is_change) {
            enter_all(&self.register, host.met());
        }
        self.watch.look(host, report);
    }

    fn wants_end(&self) -> bool {
        self.watch.wants_end()
    }
}

// Whether somebody came or went.
fn is_change(note: &Note) -> bool {
    matches!(note, Note::Came { .. } | Note::Went { .. })
}

// Tells of each slot who is connected in it.
fn enter_all(register: &Register, met: &[Option<Met>]) {
    for slot in 0..met.len() {
        register.tell(slot, seated(&met[slot]));
    }
}

fn seated(met: &Option<Met>) -> Option<Seated> {
    let Some(met) = met else {
        return None;
    };
    Some(Seated {
        address: met.address,
        generation: met.peer.generation,
    })
}
