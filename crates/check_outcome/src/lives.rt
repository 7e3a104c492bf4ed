//! What is counted of the connections of lists.

use enet_codec::{Event, Packet, UNSEQUENCED};
use std::fmt;

/// What is told of what was submitted and taken. The counts stop at 2^64 - 1.
#[derive(Clone, Copy, PartialEq, Eq)]
pub struct Told {
    /// Packets submitted.
    pub submitted: u64,
    /// Packets that came and were taken.
    pub taken: u64,
    /// How many of these came unsequenced.
    pub unsequenced: u64,
    /// Connect events that were taken.
    pub connects: u64,
    /// Disconnect events that were taken.
    pub disconnects: u64,
}

impl Told {
    /// Nothing is told.
    pub fn nothing() -> Told {
        Told {
            submitted: 0,
            taken: 0,
            unsequenced: 0,
            connects: 0,
            disconnects: 0,
        }
    }

    /// Counts what else was told.
    pub fn add(&mut self, other: Told) {
        self.submitted = self.submitted.saturating_add(other.submitted);
        self.taken = self.taken.saturating_add(other.taken);
        self.unsequenced = self.unsequenced.saturating_add(other.unsequenced);
        self.connects = self.connects.saturating_add(other.connects);
        self.disconnects = self.disconnects.saturating_add(other.disconnects);
    }

    /// Counts what was submitted on a channel, and what came of it.
    pub fn add_channel(&mut self, submitted: &[Packet], taken: &[Packet]) {
        self.submitted = self.submitted.saturating_add(submitted.len() as u64);
        for packet in taken {
            self.taken = self.taken.saturating_add(1);
            if packet.flags == UNSEQUENCED {
                self.unsequenced = self.unsequenced.saturating_add(1);
            }
        }
    }

    /// Counts what a user was told.
    pub fn add_events(&mut self, events: &[Event]) {
        for event in events {
            match event {
                Event::Connect { .. } => self.connects = self.connects.saturating_add(1),
                Event::Disconnect { .. } => self.disconnects = self.disconnects.saturating_add(1),
                Event::Receive { .. } | Event::Refused { .. } => {}
            }
        }
    }
}

/// What was told of the connections of lists. The counts stop at 2^64 - 1.
#[derive(Drop)]
pub struct Lives {
    /// Accepted Connects.
    connections: u64,
    told: Told,
    /// What was told of the connections of which no Disconnect was taken.
    standing: Told,
}

impl Lives {
    /// No connections.
    pub fn none() -> Lives {
        Lives {
            connections: 0,
            told: Told::nothing(),
            standing: Told::nothing(),
        }
    }

    /// Counts a connection, of which this is told.
    pub fn add_connection(&mut self, told: Told) {
        self.connections = self.connections.saturating_add(1);
        self.told.add(told);
        if told.disconnects == 0 {
            self.standing.add(told);
        }
    }
}

impl fmt::Display for Lives {
    fn fmt<W: fmt::Write>(&self, f: &mut fmt::Formatter<W>) -> fmt::Result {
        let Told {
            submitted,
            taken,
            unsequenced,
            connects,
            disconnects,
        } = self.told;
        writeln!(
            f,
            "{submitted} packets submitted, {taken} taken, {unsequenced} of them unsequenced"
        )?;
        let stood = self.standing.submitted;
        let taken = self.standing.taken;
        writeln!(
            f,
            "where no Disconnect was taken: {stood} submitted, {taken} taken"
        )?;
        let connections = self.connections;
        write!(
            f,
            "{connections} connections, {connects} Connects taken, {disconnects} Disconnects taken"
        )
    }
}
