//! The hosts of a server and its clients.

/// A host: the server, or one of its clients.
#[derive(Clone, Copy)]
pub enum Node {
    /// The server.
    Server,
    /// The client of this number, from 0.
    Client(u16),
}
