//! What the user sets.

ghost use Rattle.std.specs.Prelude.{◌≡◌, ◌≤◌, true, IsTrue, OnOk, OnErr, IfErr};
ghost use Rattle.enet_peer.specs.Calls.{is_connected, has_controls, with_bandwidth, with_throttle, with_throttle_limit, with_ping_interval, with_timeout};

use crate::Peer;
use enet_codec::Refusal;
use enet_rtt::Patience;
use enet_senders::Control;

impl Peer {
    /// Makes room for at least one command of channel 0xFF; where there is some, it takes no memory and makes no second
    /// place. E1 where memory is refused, with nothing changed; so only where a command of that channel is queued or
    /// unacknowledged.
    pub fn reserve(&mut self) -> Result<(), Refusal>
        ensures peer { self.new.peer ≡ self.old.peer }
        ensures room { OnOk result (1 ≤ self.new.room) }
        ensures grows { self.old.room ≤ self.new.room }
        ensures idle { 1 ≤ self.old.room → self.new ≡ self.old }
        ensures full { OnErr result (self.old.room ≡ 0) }
        ensures busy { OnErr result (has_controls self.old.peer ≡ true) }
        ensures refused { OnErr result (self.new ≡ self.old) }
        ensures memory { IfErr result (λ why. why ≡ Refusal.Memory) }
    {
        self.outbox.reserve_control()
    }

    /// Sets the host's bandwidths, in bytes per second, where 0 says that no limit is known. Where the connection stands the
    /// other end is told, for which there must be room. The own window stays until the other end tells its own bandwidths.
    pub fn bandwidth(&mut self, incoming: u32, outgoing: u32)
        requires { IsTrue (is_connected self.old.peer.state) → 1 ≤ self.old.room }
        ensures { self.new.peer ≡ with_bandwidth self.old.peer incoming outgoing }
    {
        if self.is_connected() {
            self.outbox
                .queue_control(Control::BandwidthLimit { incoming, outgoing });
        }
        self.limits.incoming = incoming;
        self.limits.outgoing = outgoing;
    }

    /// Sets the throttle's interval in milliseconds, and its acceleration and deceleration in parts of 32, of which the other
    /// end is told: the peer must be connected, and there must be room for the command.
    pub fn throttle_configure(&mut self, interval: u32, acceleration: u32, deceleration: u32)
        requires room { 1 ≤ self.old.room }
        requires connected { IsTrue (is_connected self.old.peer.state) }
        ensures { self.new.peer ≡ with_throttle self.old.peer interval acceleration deceleration }
    {
        self.outbox
            .throttle_configure(interval, acceleration, deceleration);
        self.outbox.queue_control(Control::ThrottleConfigure {
            interval,
            acceleration,
            deceleration,
        });
    }

    /// Sets the throttle's limit, where more than 32 counts as 32, and cuts the throttle to it.
    pub fn throttle_limit(&mut self, limit: u32)
        ensures peer { self.new.peer ≡ with_throttle_limit self.old.peer limit }
        ensures room { self.new.room ≡ self.old.room }
    {
        self.outbox.throttle_limit(limit);
    }

    /// Sets after how many milliseconds a peer that was not heard is pinged; 0 stands for the default of 500.
    pub fn ping_interval(&mut self, ms: u32)
        ensures peer { self.new.peer ≡ with_ping_interval self.old.peer ms }
        ensures room { self.new.room ≡ self.old.room }
    {
        self.ping_interval = if ms == 0 { 500 } else { ms };
    }

    /// Sets how long the other end may leave a command unacknowledged. The connection ends when a try fails `maximum` milliseconds or more
    /// (30,000 by the standard) after the command was first sent; or when one fails that was made `minimum` milliseconds (5,000) plus its own
    /// timeout after that and after the last acknowledgement of any command, if 2^(sends - 1) is at least `limit` (32). A 0 stands for the
    /// standard number.
    pub fn timeout(&mut self, limit: u32, minimum: u32, maximum: u32)
        ensures peer { self.new.peer ≡ with_timeout self.old.peer limit minimum maximum }
        ensures room { self.new.room ≡ self.old.room }
    {
        self.patience = Patience::with_defaults(limit, minimum, maximum);
    }
}
