//! Where a host is.

/// An IPv4 address and a port.
#[derive(Clone, Copy, Debug, PartialEq, Eq)]
pub struct Addr {
    /// The address as a number, its first part highest: 10.0.0.1 is 0x0A00_0001.
    pub ip: u32,
    /// The UDP port.
    pub port: u16,
}
