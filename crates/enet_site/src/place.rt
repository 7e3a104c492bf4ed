//! A host with all that it put out.

ghost use Rattle.std.specs.Prelude.{◌≡◌, true, false, Err, IfOk, IfErr};
ghost use Rattle.enet_codec.specs.Config.{is_in_range};
ghost use Rattle.law_network.specs.Places.{opened_at};

use crate::site::Site;
use enet_codec::{Addr, Config, Refusal};
use law_network::Sent;
use std::alloc::Global;
use std::marker::Model;

/// A host at its address, with all that is kept of it, and all that it put out, in order: datagrams of connections and those to
/// strangers.
#[derive(Drop)]
pub struct Place {
    pub site: Site,
    pub sent: Vec<Sent>,
}

impl Model for Place {
    ghost use Rattle.law_network.specs.Places.{Place};
    ghost use Rattle.std.specs.Coded.{codes};
    ghost use Rattle.enet_inbox.specs.Codes.{inbox_code};

    ghost Value = { Place };

    ghost coded = { Prim.hlevel (codes, inbox_code) };

    ghost view = { λ p. record { site = p.site; sent = p.sent.items } };
}

impl Place {
    /// A host with these settings at this address, whose slots are all free and which has put nothing out. E8 where a number of
    /// the settings is out of its range, E1 where memory is refused.
    pub fn open(alloc: Global, address: Addr, config: Config) -> Result<Place, Refusal>
        ensures out_of_range { is_in_range config ≡ false → result ≡ Err Refusal.BadConfig }
        ensures in_range { is_in_range config ≡ true → IfErr result (λ why. why ≡ Refusal.Memory) }
        ensures fresh { IfOk result (λ p. p ≡ opened_at address config) }
    {
        Ok(Place {
            site: Site::open(alloc, address, config)?,
            sent: Vec::new(alloc),
        })
    }

    /// Lets the place go. A crate that drops one in any other way proves anew how all that a host holds is dropped.
    pub fn close(self) {}
}
