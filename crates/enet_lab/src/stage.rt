//! What the lines of a script have made so far.

ghost use Rattle.std.specs.Prelude.{true, false};
ghost use Rattle.enet_lab.specs.Lines.{MakesFleet, MakesWorld};

use enet_codec::{Config, Refusal};
use enet_fleet::Fleet;
use enet_world::World;
use std::alloc::Global;

/// What the lines so far have made. It is let go by `close` alone, so that how hosts are dropped is not proved here again.
pub enum Stage {
    /// Nothing: `pair`, `open` or `fleet` is still to come.
    Empty,
    /// A world of two hosts.
    InWorld(World),
    /// A server and its clients.
    InFleet(Fleet),
    /// Nothing, since the first line was refused. No further line can be read, save those that are passed over.
    Refused,
}

impl Stage {
    /// Two hosts that are connected from the start.
    pub(crate) fn pair(alloc: Global, config: Config) -> Result<Stage, Refusal>
        ensures { MakesWorld true config config result }
    {
        match World::joined(alloc, config, config) {
            Ok(world) => Ok(Stage::InWorld(world)),
            Err(why) => Err(why),
        }
    }

    /// Two hosts that know nothing of each other.
    pub(crate) fn open(alloc: Global, cfg_a: Config, cfg_b: Config) -> Result<Stage, Refusal>
        ensures { MakesWorld false cfg_a cfg_b result }
    {
        match World::open(alloc, cfg_a, cfg_b) {
            Ok(world) => Ok(Stage::InWorld(world)),
            Err(why) => Err(why),
        }
    }

    /// A server and its clients, which know nothing of each other.
    pub(crate) fn fleet(alloc: Global, server: Config, clients: &[Config]) -> Result<Stage, Refusal>
        ensures { MakesFleet server clients.now result }
    {
        match Fleet::open(alloc, server, clients) {
            Ok(fleet) => Ok(Stage::InFleet(fleet)),
            Err(why) => Err(why),
        }
    }

    /// Lets go of what the lines so far have made.
    pub(crate) fn close(self) {
        match self {
            Stage::InWorld(world) => world.close(),
            Stage::InFleet(fleet) => fleet.close(),
            Stage::Empty | Stage::Refused => {}
        }
    }
}
