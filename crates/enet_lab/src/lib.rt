//! The lab: a script of what happens to two hosts, or to a server and its clients with strangers around them, and the network between
//! them, with one answer a line.
//!
//! Proved: `lab` returns for every script and every reader and writer. Where both tell their bytes and it ends with Ok, the whole
//! script was run (`IsRun`): each line spells what it does, the first that isn't passed over makes the world or the fleet, each further
//! one is one step of it or so many rounds without losses, and what is written is the text of each answer with a line feed. Where it ends
//! with BadScript, that is so up to the first line that can't be read, whose number is told (`IsStopped`); where it ends with Memory, what
//! is written is the answers of lines from the script's beginning on (`IsPart`). `Script::run` runs one line (`RunsLine`). `read_line`
//! gives what specs/EnetLines says that a line spells, no more and no less;
//! `answer_text` and `outcome_text` give the text that specs/Answers says, with the names of specs/Hosts.
//! Only tested, by scripts/rows and `check_lists`: that calls succeed with ample memory, worked scripts with what is written, and that a
//! read, a write or a flush that fails is told.
//! Neither: what was written before reading or writing failed.
#![tactic(auto)]

mod answer;
mod event;
mod fault;
mod host;
mod line;
mod reading;
mod script;
mod stage;
mod step;

pub use answer::{answer_text, calm_text, outcome_text, rounds_text};
pub use fault::LabFault;
pub use host::{Host, Recipient, host_text};
pub use line::{Line, read_line};
pub use reading::lab;
pub use script::Script;
pub use stage::Stage;
