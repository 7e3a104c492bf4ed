//! Both hosts, and how many connections there have been.

ghost use Rattle.std.specs.Prelude.{◌≡◌, ◌&&◌, true, IfOk, IfErr};
ghost use Rattle.enet_codec.specs.Config.{is_in_range};
ghost use Rattle.law_network.specs.declared.event.Side.{Side};
ghost use Rattle.law_network.specs.Headline.{AreEnds};
ghost use Rattle.law_network.specs.World.{Steps, joined_config, open_world, joined_world, site_of};

use crate::happening::{happen, side_of};
use enet_codec::{Addr, Config, Refusal};
use enet_site::Site;
use law_network::{Answer, Side, WorldEvent};
use std::alloc::Global;
use std::marker::Model;

/// Where the two hosts are.
const ADDRESS_A: Addr = Addr {
    ip: 0x0A00_0001,
    port: 7001,
};

const ADDRESS_B: Addr = Addr {
    ip: 0x0A00_0002,
    port: 7002,
};

/// Two hosts, each with what is kept of it.
#[derive(Drop)]
pub(crate) struct Hosts {
    a: Site,
    b: Site,
    /// How many connections there have been.
    count: u64,
}

impl Model for Hosts {
    ghost use Rattle.law_network.specs.World.{World};
    ghost use Rattle.enet_world.specs.Private.Worlds.{IsPlaced};
    ghost use Rattle.std.specs.Coded.{codes};
    ghost use Rattle.enet_inbox.specs.Codes.{inbox_code};

    ghost Value = { World };

    ghost coded = { Prim.hlevel (codes, inbox_code) };

    ghost view = { λ w. record { a = w.a; b = w.b; count = w.count } };

    ghost invariant = { λ w. IsPlaced (record { a = w.a; b = w.b; count = w.count }) };
}

/// The settings of a host that is connected to another from the start: the lesser channel count and mtu of both.
fn joined_config(config: &Config, other: &Config) -> Config
    ensures joined { result ≡ joined_config config.now other.now }
    ensures in_range { (is_in_range config.now && is_in_range other.now) ≡ true → is_in_range result ≡ true }
{
    Config {
        channels: config.channels.min(other.channels),
        mtu: config.mtu.min(other.mtu),
        ..*config
    }
}

impl Hosts {
    /// Two hosts whose slots are all free. E1 where memory is refused.
    pub fn open(alloc: Global, a: Config, b: Config) -> Result<Hosts, Refusal>
        requires { (is_in_range a && is_in_range b) ≡ true }
        ensures memory { IfErr result (λ why. why ≡ Refusal.Memory) }
        ensures fresh { IfOk result (λ w. w ≡ open_world a b) }
    {
        let near = Site::open(alloc, ADDRESS_A, a)?;
        match Site::open(alloc, ADDRESS_B, b) {
            Ok(far) => Ok(Hosts {
                a: near,
                b: far,
                count: 0,
            }),
            Err(refusal) => {
                near.close();
                Err(refusal)
            }
        }
    }

    /// Two hosts that are connected from the start, by connection 0. E1 where memory is refused.
    pub fn joined(alloc: Global, a: Config, b: Config) -> Result<Hosts, Refusal>
        requires { (is_in_range a && is_in_range b) ≡ true }
        ensures memory { IfErr result (λ why. why ≡ Refusal.Memory) }
        ensures fresh { IfOk result (λ w. w ≡ joined_world a b) }
    {
        let near = Site::joined(alloc, ADDRESS_A, joined_config(&a, &b), ADDRESS_B)?;
        match Site::joined(alloc, ADDRESS_B, joined_config(&b, &a), ADDRESS_A) {
            Ok(far) => Ok(Hosts {
                a: near,
                b: far,
                count: 1,
            }),
            Err(refusal) => {
                near.close();
                Err(refusal)
            }
        }
    }

    /// Makes one event happen.
    pub fn happen(&mut self, alloc: Global, event: &WorldEvent) -> Result<Answer, Refusal>
        requires owned { (side : Side) → AreEnds (λ address. true) (site_of self.old side) }
        ensures { Steps self.old event.now result self.new }
    {
        // That each site has few ends, as `connections` tells, keeps the count of connections within its type.
        let _ = (self.a.connections(), self.b.connections());
        match side_of(event) {
            Side::A => happen(&mut self.a, &self.b, &mut self.count, alloc, event),
            Side::B => happen(&mut self.b, &self.a, &mut self.count, alloc, event),
        }
    }

    /// Lets both hosts go.
    pub fn close(self) {
        self.a.close();
        self.b.close();
    }

    /// The site of a side.
    pub fn site(&self, side: Side) -> &Site
        ensures { result.now ≡ site_of self.now side }
    {
        match side {
            Side::A => &self.a,
            Side::B => &self.b,
        }
    }
}
