//! A service over our host, with the wire at which it is reached.

use crate::run_length::show;
use crate::watch::Watch;
use crate::watched::WatchedHost;
use crate::{Report, Service, Wire};
use enet_codec::{Config, Refusal};
use enet_outbox::SendLimit;
use std::alloc::Global;

/// A service over our host, and the wire at which it is reached. It is given up by [`BoundService::close`] alone.
pub struct BoundService<N> {
    pub wire: N,
    pub service: Service<WatchedHost>,
}

impl<N: Wire + Drop> BoundService<N> {
    ghost use Rattle.std.specs.Prelude.{◌≡◌, true, false, IfOk, IfErr, Err};
    ghost use Rattle.enet_codec.specs.Config.{is_in_range};
    ghost use Rattle.enet_service.specs.ServiceRuns.{beginning, limited};

    /// A host of this configuration, which did nothing yet, at this wire.
    ///
    /// E8 where a number of the configuration is out of its range, E1 for want of memory.
    pub fn open(alloc: Global, wire: N, config: Config) -> Result<BoundService<N>, Refusal>
        ensures out_of_range { is_in_range config ≡ false → result ≡ Err Refusal.BadConfig }
        ensures in_range { is_in_range config ≡ true → IfErr result (λ why. why ≡ Refusal.Memory) }
        ensures begins { IfOk result (λ bound. (bound.service ≡ beginning config) × (bound.wire ≡ wire)) }
    {
        let host = WatchedHost::open(alloc, config)?;
        Ok(BoundService {
            wire,
            service: Service::new(host),
        })
    }

    /// Sets at how much queued or unacknowledged its host's peers take no further packet, if there is a limit
    /// ([`HostCore::set_send_limit`]): an order to submit one is refused then, by E9. Where None is given all stays as it is. It is made to
    /// be called before the first turn.
    ///
    /// [`HostCore::set_send_limit`]: enet_host::HostCore::set_send_limit
    pub fn set_send_limit(&mut self, limit: Option<SendLimit>)
        ensures limited { self.new.service ≡ limited limit self.old.service }
        ensures wire { self.new.wire ≡ self.old.wire }
    {
        if let Some(SendLimit { bytes, commands }) = limit {
            self.service.host.set_send_limit(bytes, commands);
        }
    }

    /// Shows what turns did, with what the host noted in them, to whoever watches; then the host forgets what it noted.
    pub fn show<W: Watch>(&mut self, report: Report, watch: &mut W)
        ensures { (self.new.service ≡ self.old.service) × (self.new.wire ≡ self.old.wire) }
    {
        show(&mut self.service.host, report, watch);
    }

    /// Gives host and wire up.
    pub fn close(self) {
        let BoundService { wire, service } = self;
        drop(service);
        drop(wire);
    }
}
