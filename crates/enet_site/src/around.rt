//! What is around a host.

ghost use Rattle.std.specs.Prelude.{◌≡◌, ℕ, Bool, List};

use enet_codec::Addr;

/// What is around a host in a network: at which addresses there are hosts, and how far the numbers of the other end of each
/// connection have come.
pub trait Around {
    ghost use Rattle.enet_codec.specs.declared.address.Addr.{Addr};

    /// At which addresses there are hosts; at all others there are strangers.
    ghost hosts: { Self → Addr → Bool };

    /// The greatest numbers that the other end of a connection has sent, by channel.
    ghost numbers: { Self → ℕ → List ℕ };

    /// Whether there is a host at an address.
    fn is_host(&self, address: Addr) -> bool
        ensures { result ≡ hosts self.now address };

    /// The greatest numbers that the other end of a connection has sent, by channel.
    fn numbers(&self, connection: u64) -> &[u128]
        ensures { result.now ≡ numbers self.now connection };
}
