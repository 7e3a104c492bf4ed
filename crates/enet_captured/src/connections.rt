//! Which connection a datagram belongs to.

ghost use Rattle.std.specs.Prelude.{◌≡◌, length};
ghost use Rattle.enet_captured.specs.Private.Belonging.{IsLast, goes_on, is_between, is_between_at, same_address, way_in};

use crate::timeline::{Connection, Way};
use enet_codec::Addr;
use std::alloc::AllocError;

/// How many connections of a capture are kept apart.
const MOST: usize = 256;

/// A connection, and whither a datagram of it goes.
#[derive(Clone, Copy)]
pub(crate) struct Belonging {
    pub connection: usize,
    pub way: Way,
}

/// The connection of a datagram between two addresses: the last one between them, or a new one where there is none, or where the datagram
/// has a CONNECT and that one began with another. None where it would be new and there are as many as are kept. An error where there is no
/// memory for it.
pub(crate) fn connection_for(
    connections: &mut Vec<Connection>,
    from: Addr,
    to: Addr,
    id: Option<u32>,
) -> Result<Option<Belonging>, AllocError> {
    if let Some(connection) = last_between(connections.as_slice(), from, to) {
        let last = connections[connection];
        if goes_on(last, id) {
            return Ok(way_in(last, from, to).map(|way| Belonging { connection, way }));
        }
    }
    let connection = connections.len();
    if connection >= MOST {
        return Ok(None);
    }
    connections.push(Connection {
        left: from,
        right: to,
        id,
    })?;
    Ok(Some(Belonging {
        connection,
        way: Way::Right,
    }))
}

// The last connection between two addresses.
fn last_between(connections: &[Connection], from: Addr, to: Addr) -> Option<usize>
    ensures { IsLast (is_between_at connections.now from to) (length connections.now) result }
{
    let mut found = None;
    for (i, connection) in connections.iter().enumerate() {
        if is_between(*connection, from, to) {
            found = Some(i);
        }
    }
    found
}

// Whether a connection is between two addresses.
fn is_between(connection: Connection, from: Addr, to: Addr) -> bool
    ensures { result ≡ is_between connection from to }
{
    way_in(connection, from, to).is_some()
}

// Whither a datagram between two addresses goes in a connection; None where it isn't between its ends.
fn way_in(connection: Connection, from: Addr, to: Addr) -> Option<Way>
    ensures { result ≡ way_in connection from to }
{
    if is_one(connection.left, from) && is_one(connection.right, to) {
        return Some(Way::Right);
    }
    if is_one(connection.left, to) && is_one(connection.right, from) {
        return Some(Way::Left);
    }
    None
}

// Whether a datagram with this connect id goes on with a connection.
fn goes_on(connection: Connection, id: Option<u32>) -> bool
    ensures { result ≡ goes_on connection id }
{
    match (id, connection.id) {
        (None, _) => true,
        (Some(_), None) => false,
        (Some(id), Some(begun)) => id == begun,
    }
}

// Whether two addresses are one.
fn is_one(one: Addr, other: Addr) -> bool
    ensures { result ≡ same_address one other }
{
    one.ip == other.ip && one.port == other.port
}
