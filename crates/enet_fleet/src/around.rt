//! What is around each host of a fleet.

ghost use Rattle.std.specs.Prelude.{◌≡◌};

use crate::hosts::{client_of, is_host};
use enet_codec::Addr;
use enet_site::{Around, Place, Site};

/// Around a client there are so many clients, itself among them, and the server, which has the other end of its connections.
#[derive(Clone, Copy)]
pub(crate) struct AroundClient<'a> {
    pub server: &'a Site,
    pub clients: usize,
}

impl Around for AroundClient<'_> {
    ghost use Rattle.law_network.specs.Network.{numbers_of};
    ghost use Rattle.enet_fleet.specs.Fleets.{is_host};

    ghost hosts = { λ w. is_host w.clients };

    ghost numbers = { λ w. numbers_of w.server.now };

    fn is_host(&self, address: Addr) -> bool {
        is_host(self.clients, address)
    }

    fn numbers(&self, connection: u64) -> &[u128] {
        self.server.numbers(connection)
    }
}

/// Around the server there are its clients. The other end of a connection is at the client that asked for it.
#[derive(Clone, Copy)]
pub(crate) struct AroundServer<'a> {
    pub clients: &'a [Place],
    pub asked: &'a [u16],
}

impl Around for AroundServer<'_> {
    ghost use Rattle.std.specs.Prelude.{length, slice_get};
    ghost use Rattle.enet_fleet.specs.Fleets.{is_host, numbers_at, client_in};

    ghost hosts = { λ w. is_host (length w.clients.now) };

    ghost numbers = { λ w x. numbers_at x (client_in w.clients.now (slice_get w.asked.now x)) };

    fn is_host(&self, address: Addr) -> bool {
        is_host(self.clients.len(), address)
    }

    fn numbers(&self, connection: u64) -> &[u128] {
        match client_of(self.clients, self.asked, connection) {
            Some(client) => client.site.numbers(connection),
            None => &[],
        }
    }
}
