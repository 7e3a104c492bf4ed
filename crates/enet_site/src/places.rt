//! Many hosts.

ghost use Rattle.std.specs.Prelude.{◌≡◌, ◌+◌, ◌≤◌, ◌^◌, true, length, IfOk, IfErr};
ghost use Rattle.std.specs.List.{list_all};
ghost use Rattle.enet_codec.specs.Config.{is_in_range};
ghost use Rattle.law_network.specs.Places.{all_opened};

use crate::place::Place;
use enet_codec::{Addr, Config, Refusal};
use std::alloc::Global;

/// As many hosts as there are settings, at one IP address and at ports in order from the first, whose slots are all free. E1
/// where memory is refused.
pub fn open_clients(
    alloc: Global,
    configs: &[Config],
    ip: u32,
    first_port: u16,
) -> Result<Vec<Place>, Refusal>
    requires in_range { list_all is_in_range configs.now ≡ true }
    requires ports { first_port + length configs.now ≤ 2 ^ 16 }
    ensures memory { IfErr result (λ why. why ≡ Refusal.Memory) }
    ensures fresh { IfOk result (λ places. places.items ≡ all_opened (λ i. record { ip = ip; port = first_port + i }) 0 configs.now) }
{
    let Ok(mut places) = Vec::with_capacity(alloc, configs.len()) else {
        return Err(Refusal::Memory);
    };
    for (i, config) in configs.iter().enumerate() {
        let address = Addr {
            ip,
            port: first_port + i as u16,
        };
        match Place::open(alloc, address, *config) {
            Ok(place) => places.push_reserved(place),
            Err(why) => {
                close_all(places);
                return Err(why);
            }
        }
    }
    Ok(places)
}

/// Lets hosts go. A crate that drops them in any other way proves anew how all that a host holds is dropped.
pub fn close_all(_places: Vec<Place>) {}
