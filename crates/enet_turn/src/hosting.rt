//! The host of this workspace, as a turn calls it.

use crate::host::Core;
use enet_codec::{Addr, DisconnectMode, Event, Refusal};
use enet_host::HostCore;
use enet_submit::Order;

impl Core for HostCore {
    ghost use Rattle.enet_turn.specs.Hosting.{host_calls, untold};

    ghost calls = { host_calls };

    ghost untold = { untold };

    fn tick(&mut self, ms: u32) {
        HostCore::tick(self, ms);
    }

    #[inline(always)]
    fn apply_order(&mut self, order: Order) -> Result<(), Refusal> {
        match order {
            Order::Connect {
                addr,
                channels,
                info,
                word,
            } => {
                self.connect(addr, channels, info, word)?;
                Ok(())
            }
            Order::Submit {
                peer,
                channel,
                flags,
                body,
            } => match self.submit(peer, channel, flags, body) {
                Ok(()) => Ok(()),
                Err((why, _body)) => Err(why),
            },
            Order::Disconnect { peer, how, info } => match how {
                DisconnectMode::Now => self.disconnect_now(peer, info),
                DisconnectMode::Ask => self.disconnect(peer, info),
                DisconnectMode::Later => self.disconnect_later(peer, info),
            },
        }
    }

    fn receive(&mut self, from: Addr, bytes: &[u8]) {
        let _ = self.receive(from, bytes);
    }

    fn emit(&mut self, buf: &mut [u8; 4096]) -> Option<(Addr, usize)> {
        let (_peer, to, len) = self.service(buf)?;
        Some((to, len))
    }

    fn next_event(&mut self) -> Option<Event> {
        self.next_event()
    }
}
