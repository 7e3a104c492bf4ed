//! Running a script, line by line.

ghost use Rattle.std.specs.Prelude.{◌≡◌, ◌+◌, min, true, false, replicate, IfOk, IfErr};
ghost use Rattle.std.specs.Option.{option_map};
ghost use Rattle.std.specs.String.{string_bytes};
ghost use Rattle.enet_codec.specs.Config.{standard_config};
ghost use Rattle.enet_lab.specs.declared.line.Line.TheVariants as spelled;
ghost use Rattle.enet_lab.specs.declared.stage.Stage.TheVariants as stages;
ghost use Rattle.enet_lab.specs.Lines.{Begins, Does, MakesFleet, MakesWorld, Opens, RunsLine, can_do, can_read, is_empty};
ghost use Rattle.enet_lab.specs.Refused.{IsRefused};

use crate::fault::LabFault;
use crate::stage::Stage;
use crate::step::{
    fleet_step, is_in_fleet, is_in_world, newest, newest_from, other, world_calm, world_rounds,
    world_step,
};
use crate::{Line, read_line};
use enet_codec::{Config, Refusal};
use enet_fleet::{FleetEvent, Node};
use enet_text::refusal_text;
use law_network::{Side, WorldEvent};
use std::alloc::Global;
use std::mem::replace;

/// A script that is being run.
pub struct Script {
    alloc: Global,
    /// What the lines so far have made.
    pub stage: Stage,
    /// How many lines there were, those that are passed over among them.
    pub lines: u32,
}

impl Script {
    /// A script of which no line was run.
    pub fn new(alloc: Global) -> Script
        ensures stage { result.stage ≡ stages.Empty }
        ensures lines { result.lines ≡ 0 }
    {
        Script {
            alloc,
            stage: Stage::Empty,
            lines: 0,
        }
    }

    /// Runs the next line. Its answer, or None where the line is passed over. Memory where the lab finds none for the text;
    /// BadScript with the line's number where it can't be read.
    pub fn run(&mut self, text: &[u8]) -> Result<Option<String>, LabFault>
        ensures counted { self.new.lines ≡ min (self.old.lines + 1) 4294967295 }
        ensures runs { IfOk result (λ answer. RunsLine self.old.stage text.now (option_map string_bytes answer) self.new.stage) }
        ensures unreadable { IfErr result (IsRefused self.new.lines (can_read self.old.stage text.now)) }
    {
        self.lines = self.lines.saturating_add(1);
        match read_line(self.alloc, text)? {
            Some(line) => self.run_as(line),
            None => Err(LabFault::BadScript(self.lines)),
        }
    }

    /// Does what a line spells.
    fn run_as(&mut self, line: Line) -> Result<Option<String>, LabFault>
        ensures lines { self.new.lines ≡ self.old.lines }
        ensures does { IfOk result (λ answer. Does self.old.stage line (option_map string_bytes answer) self.new.stage) }
        ensures unreadable { IfErr result (IsRefused self.old.lines (can_do self.old.stage line)) }
    {
        match line {
            Line::PassedOver => Ok(None),
            Line::InWorld(event) => self.step_world(event),
            Line::InFleet(event) => self.step_fleet(event),
            Line::Calm { rounds, ms } => self.calm(rounds, ms),
            Line::RoundsNeeded { connection, ms } => self.rounds_needed(connection, ms),
            Line::DeliverLast { side } => self.deliver_last(side),
            Line::DeliverLastFrom { to, from } => self.deliver_last_from(to, from),
            Line::Pair { channels } => self.pair(Config::standard(1, channels)),
            Line::Open {
                peers_a,
                channels_a,
                peers_b,
                channels_b,
            } => self.open(
                Config::standard(peers_a, channels_a),
                Config::standard(peers_b, channels_b),
            ),
            Line::Fleet {
                clients,
                peers,
                channels,
            } => self.fleet(
                Config::standard(peers, channels),
                Config::standard(1, channels),
                clients,
            ),
        }
    }

    /// Makes a world of two hosts that are connected from the start, once.
    fn pair(&mut self, config: Config) -> Result<Option<String>, LabFault>
        ensures lines { self.new.lines ≡ self.old.lines }
        ensures does { IfOk result (λ answer. Opens self.old.stage (MakesWorld true config config) (option_map string_bytes answer) self.new.stage) }
        ensures unreadable { IfErr result (IsRefused self.old.lines (is_empty self.old.stage)) }
    {
        let Stage::Empty = self.stage else {
            return Err(LabFault::BadScript(self.lines));
        };
        self.begin(Stage::pair(self.alloc, config))
    }

    /// Makes a world of two hosts that know nothing of each other, once.
    fn open(&mut self, cfg_a: Config, cfg_b: Config) -> Result<Option<String>, LabFault>
        ensures lines { self.new.lines ≡ self.old.lines }
        ensures does { IfOk result (λ answer. Opens self.old.stage (MakesWorld false cfg_a cfg_b) (option_map string_bytes answer) self.new.stage) }
        ensures unreadable { IfErr result (IsRefused self.old.lines (is_empty self.old.stage)) }
    {
        let Stage::Empty = self.stage else {
            return Err(LabFault::BadScript(self.lines));
        };
        self.begin(Stage::open(self.alloc, cfg_a, cfg_b))
    }

    /// Makes a server and so many clients alike, once.
    fn fleet(
        &mut self,
        server: Config,
        client: Config,
        clients: u16,
    ) -> Result<Option<String>, LabFault>
        ensures lines { self.new.lines ≡ self.old.lines }
        ensures does { IfOk result (λ answer. Opens self.old.stage (MakesFleet server (replicate clients client)) (option_map string_bytes answer) self.new.stage) }
        ensures unreadable { IfErr result (IsRefused self.old.lines (is_empty self.old.stage)) }
    {
        let Stage::Empty = self.stage else {
            return Err(LabFault::BadScript(self.lines));
        };
        let clients = vec![in self.alloc; client; usize::from(clients)]?;
        self.begin(Stage::fleet(self.alloc, server, &clients))
    }

    /// Lets go of the stage so far, for this one.
    fn go_on(&mut self, stage: Stage)
        ensures stage { self.new.stage ≡ stage }
        ensures lines { self.new.lines ≡ self.old.lines }
    {
        replace(&mut self.stage, stage).close();
    }

    /// Begins with a network, or with the refusal of one.
    fn begin(&mut self, made: Result<Stage, Refusal>) -> Result<Option<String>, LabFault>
        ensures lines { self.new.lines ≡ self.old.lines }
        ensures begins { IfOk result (λ answer. Begins made (option_map string_bytes answer) self.new.stage) }
        ensures memory { IfErr result (λ fault. fault ≡ LabFault.Memory) }
    {
        let text = match made {
            Ok(stage) => {
                self.go_on(stage);
                String::from_str(self.alloc, "ok")?
            }
            Err(refusal) => {
                self.go_on(Stage::Refused);
                refusal_text(self.alloc, refusal)?
            }
        };
        Ok(Some(text))
    }

    /// Makes an event happen in the world.
    fn step_world(&mut self, event: WorldEvent) -> Result<Option<String>, LabFault>
        ensures lines { self.new.lines ≡ self.old.lines }
        ensures does { IfOk result (λ answer. Does self.old.stage (spelled.InWorld event) (option_map string_bytes answer) self.new.stage) }
        ensures unreadable { IfErr result (IsRefused self.old.lines (can_do self.old.stage (spelled.InWorld event))) }
    {
        let Stage::InWorld(world) = &mut self.stage else {
            return Err(LabFault::BadScript(self.lines));
        };
        if !is_in_world(world, &event) {
            return Err(LabFault::BadScript(self.lines));
        }
        Ok(Some(world_step(self.alloc, world, event)?))
    }

    /// Makes rounds without losses happen in the world.
    fn calm(&mut self, rounds: u64, ms: u32) -> Result<Option<String>, LabFault>
        ensures lines { self.new.lines ≡ self.old.lines }
        ensures does { IfOk result (λ answer. Does self.old.stage (spelled.Calm rounds ms) (option_map string_bytes answer) self.new.stage) }
        ensures unreadable { IfErr result (IsRefused self.old.lines (can_do self.old.stage (spelled.Calm rounds ms))) }
    {
        let Stage::InWorld(world) = &mut self.stage else {
            return Err(LabFault::BadScript(self.lines));
        };
        Ok(Some(world_calm(self.alloc, world, rounds, ms)?))
    }

    /// Tells how many rounds are enough for a connection of the world.
    fn rounds_needed(&mut self, connection: u64, ms: u32) -> Result<Option<String>, LabFault>
        ensures lines { self.new.lines ≡ self.old.lines }
        ensures does { IfOk result (λ answer. Does self.old.stage (spelled.RoundsNeeded connection ms) (option_map string_bytes answer) self.new.stage) }
        ensures unreadable { IfErr result (IsRefused self.old.lines (can_do self.old.stage (spelled.RoundsNeeded connection ms))) }
    {
        let Stage::InWorld(world) = &self.stage else {
            return Err(LabFault::BadScript(self.lines));
        };
        Ok(Some(world_rounds(self.alloc, world, connection, ms)?))
    }

    /// Makes an event happen in the fleet.
    fn step_fleet(&mut self, event: FleetEvent) -> Result<Option<String>, LabFault>
        ensures lines { self.new.lines ≡ self.old.lines }
        ensures does { IfOk result (λ answer. Does self.old.stage (spelled.InFleet event) (option_map string_bytes answer) self.new.stage) }
        ensures unreadable { IfErr result (IsRefused self.old.lines (can_do self.old.stage (spelled.InFleet event))) }
    {
        let Stage::InFleet(fleet) = &mut self.stage else {
            return Err(LabFault::BadScript(self.lines));
        };
        if !is_in_fleet(fleet, &event) {
            return Err(LabFault::BadScript(self.lines));
        }
        Ok(Some(fleet_step(self.alloc, fleet, event)?))
    }

    /// Brings a side of the world the newest datagram of the other.
    fn deliver_last(&mut self, side: Side) -> Result<Option<String>, LabFault>
        ensures lines { self.new.lines ≡ self.old.lines }
        ensures does { IfOk result (λ answer. Does self.old.stage (spelled.DeliverLast side) (option_map string_bytes answer) self.new.stage) }
        ensures unreadable { IfErr result (IsRefused self.old.lines (can_do self.old.stage (spelled.DeliverLast side))) }
    {
        let Stage::InWorld(world) = &mut self.stage else {
            return Err(LabFault::BadScript(self.lines));
        };
        let Some(k) = newest(world, other(side)) else {
            return Err(LabFault::Memory);
        };
        let event = WorldEvent::Deliver { side, k };
        Ok(Some(world_step(self.alloc, world, event)?))
    }

    /// Brings a host of the fleet the newest datagram of another.
    fn deliver_last_from(&mut self, to: Node, from: Node) -> Result<Option<String>, LabFault>
        ensures lines { self.new.lines ≡ self.old.lines }
        ensures does { IfOk result (λ answer. Does self.old.stage (spelled.DeliverLastFrom to from) (option_map string_bytes answer) self.new.stage) }
        ensures unreadable { IfErr result (IsRefused self.old.lines (can_do self.old.stage (spelled.DeliverLastFrom to from))) }
    {
        let Stage::InFleet(fleet) = &mut self.stage else {
            return Err(LabFault::BadScript(self.lines));
        };
        let Some(k) = newest_from(fleet, from) else {
            return Err(LabFault::Memory);
        };
        let event = FleetEvent::Deliver { to, from, k };
        Ok(Some(fleet_step(self.alloc, fleet, event)?))
    }

    /// Ends the script.
    pub fn close(self) {
        let Script {
            alloc: _,
            stage,
            lines: _,
        } = self;
        stage.close();
    }
}
