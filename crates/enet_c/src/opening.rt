//! Hosts begin and end.

ghost use Rattle.std.specs.Prelude.{◌≡◌, None, Ok, Err, IfOk, IfErr};
ghost use Rattle.enet_codec.specs.Config.{standard_config};
ghost use Rattle.enet_host.specs.Opening.{Opens, opened};
ghost use Rattle.enet_c.specs.Border.{Begins, new_held};
ghost use Rattle.enet_c.specs.Shapes.{config_shown, config_meant};

use crate::held::Held;
use crate::numbers::{OK, OPEN, number_of};
use crate::own::Handle;
use crate::shapes::CoreConfig;
use enet_host::{Config, HostCore, Refusal};
use std::alloc::Global;

/// The settings that serve most hosts.
#[unsafe(no_mangle)]
pub extern "C" fn gofnjerta_core_standard(peers: u16, channels: u8, config: &mut CoreConfig)
    ensures { config.new ≡ config_shown (standard_config peers channels) }
{
    *config = CoreConfig::of(Config::standard(peers, channels));
}

/// Opens a host. The handle must be closed, as one of all zero bytes is. E8 where a number of the settings is out of its range,
/// E1 where memory is refused.
#[unsafe(no_mangle)]
pub extern "C" fn gofnjerta_core_open(
    alloc: Global,
    handle: &mut Handle,
    config: &CoreConfig,
) -> u32
    ensures { Begins (config_meant config.now) handle.old.own.value result handle.new.own.value }
{
    if let Some(held) = handle.take(alloc) {
        handle.put(held);
        return OPEN;
    }
    match begun(alloc, config.into_config()) {
        Ok(held) => {
            handle.put(held);
            OK
        }
        Err(why) => number_of(why),
    }
}

/// A host with these settings, and nothing staged or told. E8 and E1 as by `gofnjerta_core_open`.
fn begun(alloc: Global, config: Config) -> Result<Box<Held>, Refusal>
    ensures opens { IfOk result (λ held. Opens config (Ok held.value.host) (opened config)) }
    ensures alone { IfOk result (λ held. held.value ≡ new_held held.value.host) }
    ensures refused { IfErr result (λ why. Opens config (Err why) (opened config)) }
{
    let host = HostCore::open(alloc, config)?;
    let held = Held {
        host,
        staged: None,
        told: None,
    };
    match Box::new(alloc, held) {
        Ok(held) => Ok(held),
        Err(_) => Err(Refusal::Memory),
    }
}

/// Closes a host and frees what it holds. A closed handle stays closed.
#[unsafe(no_mangle)]
pub extern "C" fn gofnjerta_core_close(alloc: Global, handle: &mut Handle)
    ensures { handle.new.own.value ≡ None }
{
    drop(handle.take(alloc));
}
