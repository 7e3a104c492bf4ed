//! Bandwidths: a peer's window, its share of the host's bandwidth, and the throttle's limit.

ghost use Rattle.std.specs.Prelude.{◌≡◌, ◌≤◌};
ghost use Rattle.enet_throttle.specs.Bandwidth.{window_for, window_size, share, budget, throttle_limit};

// The window for one bandwidth: 4,096 bytes for each whole 65,536 bytes per second, 4,096 to 65,536.
fn window_for_one(bandwidth: u32) -> u32
    ensures { result ≡ window_for bandwidth }
{
    (bandwidth / 65_536 * 4_096).clamp(4_096, 65_536)
}

/// The size in bytes of a peer's window, 4,096 to 65,536, from the own outgoing bandwidth and the other's incoming one:
/// 65,536 where both are 0, which says that no limit is known; where one is 0, the window for the other; where none is,
/// the window for the lesser (ENet 1.3). The window that CONNECT names is `window_of(outgoing, 0)`.
pub fn window_of(outgoing: u32, incoming: u32) -> u32
    ensures size { result ≡ window_size outgoing incoming }
    ensures least { 4096 ≤ result }
    ensures most { result ≤ 65536 }
{
    match (outgoing, incoming) {
        (0, 0) => 65_536,
        (0, known) | (known, 0) => window_for_one(known),
        _ => window_for_one(outgoing.min(incoming)),
    }
}

/// The bytes per second that a host may send to one of its connected peers: the lesser of an equal share of the host's
/// outgoing bandwidth, at least 1, and the peer's incoming bandwidth, where 0 says that no limit is known; None where
/// neither is known (our profile). A count of 0 peers counts as 1.
pub fn budget_of(outgoing: u32, peers: u32, incoming: u32) -> Option<u32>
    ensures { result ≡ budget outgoing peers incoming }
{
    match (outgoing, incoming) {
        (0, 0) => None,
        (0, known) => Some(known),
        (_, 0) => Some(share_of(outgoing, peers)),
        _ => Some(share_of(outgoing, peers).min(incoming)),
    }
}

// An equal share of a bandwidth, at least 1.
fn share_of(outgoing: u32, peers: u32) -> u32
    ensures { result ≡ share outgoing peers }
{
    (outgoing / peers.max(1)).max(1)
}

/// The throttle's limit, 1 to 32, for a peer to whom so many bytes were sent since the limit was last set: 32 where no
/// budget is known or the bytes are within it, and else of 32 as much as the budget is of the bytes, at least 1 (our
/// profile).
pub fn limit_of(sent: u32, budget: Option<u32>) -> u32
    ensures limit { result ≡ throttle_limit sent budget }
    ensures least { 1 ≤ result }
    ensures most { result ≤ 32 }
{
    match budget {
        Some(budget) if sent > budget => {
            let limit = 32 * u64::from(budget) / u64::from(sent);
            (limit as u32).max(1)
        }
        _ => 32,
    }
}
