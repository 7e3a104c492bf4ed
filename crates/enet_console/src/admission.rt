//! What `serve` can be told of its socket, of whom it lets in, and of how much of them.

use clap::{Arg, ArgAction, ArgMatches, Command, value_parser};
use std::alloc::{AllocError, Global};
use std::net::Ipv4Addr;

/// How the server meets those who come.
#[derive(Drop)]
pub struct Admission {
    /// The greatest length of a datagram.
    pub mtu: u32,
    /// How many bytes the system is asked to keep until they are received.
    pub receive_buffer: Option<u32>,
    /// How many clients of one address there are at most.
    pub per_address: Option<u32>,
    /// How many CONNECTs of one address are let in within a second.
    pub connects_per_address: Option<u32>,
    /// The same in all.
    pub connects_per_second: Option<u32>,
    /// How many packets, or pieces of long ones, a client may send in a second.
    pub packets_per_client: Option<u32>,
    /// How many bytes of packets.
    pub bytes_per_client: Option<u32>,
    /// The addresses that are banned.
    pub banned: Vec<u32>,
}

/// The command with these options.
pub fn with_admission<'a>(alloc: Global, command: Command<'a>) -> Result<Command<'a>, AllocError> {
    command
        .arg(mtu(alloc)?)?
        .arg(receive_buffer(alloc))?
        .arg(per_address(alloc))?
        .arg(connects_per_second(alloc))?
        .arg(connects_per_address(alloc))?
        .arg(packets_per_client(alloc))?
        .arg(bytes_per_client(alloc))?
        .arg(ban(alloc))
}

fn mtu<'a>(alloc: Global) -> Result<Arg<'a>, AllocError> {
    Ok(
        number(alloc, "mtu", 576, 4_096)
            .help("The greatest length of a datagram in bytes, without the 28 of its headers")
            .default_value("1392"),
    )
}

fn receive_buffer<'a>(alloc: Global) -> Arg<'a> {
    number(alloc, "receive-buffer", 2_048, 1_073_741_824).help(
        "How many bytes the system is asked to keep until they are received [default: 4194304]",
    )
}

fn per_address<'a>(alloc: Global) -> Arg<'a> {
    number(alloc, "per-address", 1, 4_095).help(
        "How many clients of one address there are at most [default: no limit]",
    )
}

fn connects_per_second<'a>(alloc: Global) -> Arg<'a> {
    number(alloc, "connects-per-second", 1, 1_000_000).help(
        "How many CONNECTs are let in within a second, in all [default: no limit]",
    )
}

fn connects_per_address<'a>(alloc: Global) -> Arg<'a> {
    number(alloc, "connects-per-address", 1, 1_000_000).help(
        "How many CONNECTs of one address are let in within a second [default: no limit]",
    )
}

fn packets_per_client<'a>(alloc: Global) -> Arg<'a> {
    number(alloc, "packets-per-client", 1, 1_000_000).help(
        "How many packets, or pieces of long ones, a client may send in a second: beyond those of two seconds at once they are passed over [default: no limit]",
    )
}

fn bytes_per_client<'a>(alloc: Global) -> Arg<'a> {
    number(alloc, "bytes-per-client", 1, 1_073_741_824).help(
        "How many bytes of packets, in the same way [default: no limit]",
    )
}

fn ban<'a>(alloc: Global) -> Arg<'a> {
    Arg::new(alloc, "ban")
        .long("ban")
        .help("Lets no client of this address in, as a.b.c.d; it can be given several times")
        .action(ArgAction::Append)
}

// An option that takes a number of 32 bits.
pub(crate) fn number<'a>(alloc: Global, name: &'a str, least: i64, most: i64) -> Arg<'a> {
    Arg::new(alloc, name)
        .long(name)
        .value_parser(value_parser!(u32).range(least..=most))
}

/// What was said of it. None where a word to `--ban` isn't an address.
pub fn read_admission(
    alloc: Global,
    found: &ArgMatches<'_>,
) -> Result<Option<Admission>, AllocError> {
    let Some(mtu) = found.get_one::<u32>("mtu") else {
        return Ok(None);
    };
    let Some(banned) = banned(alloc, found)? else {
        return Ok(None);
    };
    Ok(Some(Admission {
        mtu,
        receive_buffer: found.get_one::<u32>("receive-buffer"),
        per_address: found.get_one::<u32>("per-address"),
        connects_per_address: found.get_one::<u32>("connects-per-address"),
        connects_per_second: found.get_one::<u32>("connects-per-second"),
        packets_per_client: found.get_one::<u32>("packets-per-client"),
        bytes_per_client: found.get_one::<u32>("bytes-per-client"),
        banned,
    }))
}

fn banned(alloc: Global, found: &ArgMatches<'_>) -> Result<Option<Vec<u32>>, AllocError> {
    let mut banned = Vec::new(alloc);
    let Some(addresses) = found.get_many::<Ipv4Addr>("ban") else {
        return Ok(Some(banned));
    };
    for address in addresses {
        match address {
            Ok(address) => banned.push(address.to_bits())?,
            Err(_) => return Ok(None),
        }
    }
    Ok(Some(banned))
}
