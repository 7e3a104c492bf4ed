//! How much a host holds of what others sent.

ghost use Rattle.std.specs.Prelude.{◌≡◌, ℕ, ◌+◌, ◌<◌, ◌≤◌, ◌^◌, length};
ghost use Rattle.enet_peer.specs.Held.{most_of, IsWithin};
ghost use Rattle.enet_slot.specs.Holding.{nothing_held};
ghost use Rattle.enet_slot.specs.Slotted.{all_shown};
ghost use Rattle.enet_host.specs.Held.{held_by, most_held, times, AreLimited};
ghost use Rattle.enet_host.specs.Private.Held.{together, IsLittleBy};

use crate::host::HostCore;
use enet_peer::Held;
use enet_slot::Slot;

/// What nobody holds.
const NOTHING: Held = Held {
    channels: 0,
    senders: 0,
    packets: 0,
    undispatched: 0,
    bytes: 0,
    acknowledgements: 0,
};

/// This and that together.
fn together(this: Held, that: Held) -> Held
    requires channels { this.channels + that.channels < 2 ^ 64 }
    requires senders { this.senders + that.senders < 2 ^ 64 }
    requires packets { this.packets + that.packets < 2 ^ 64 }
    requires undispatched { this.undispatched + that.undispatched < 2 ^ 64 }
    requires bytes { this.bytes + that.bytes < 2 ^ 64 }
    requires acknowledgements { this.acknowledgements + that.acknowledgements < 2 ^ 64 }
    ensures { result ≡ together this that }
{
    Held {
        channels: this.channels + that.channels,
        senders: this.senders + that.senders,
        packets: this.packets + that.packets,
        undispatched: this.undispatched + that.undispatched,
        bytes: this.bytes + that.bytes,
        acknowledgements: this.acknowledgements + that.acknowledgements,
    }
}

/// What the peers of these slots hold together.
fn held_by(slots: &[Slot]) -> Held
    requires { length slots.now ≤ 4095 }
    ensures value { result ≡ held_by (all_shown slots.now) }
    ensures little { IsLittleBy 4095 result }
    ensures bound { (max_packet max_waiting : ℕ) → AreLimited max_packet max_waiting (all_shown slots.now) → IsWithin result (times (length slots.now) (most_of max_packet max_waiting)) }
{
    let mut total = NOTHING;
    for slot in slots {
        total = together(total, slot.held());
    }
    total
}

impl HostCore {
    /// What its slots hold together.
    pub(crate) fn held_in_all(&self) -> Held
        ensures value { result ≡ held_by self.now.slots }
        ensures bound { IsWithin result (most_held self.now.config) }
        ensures little { IsLittleBy 4095 result }
    {
        held_by(&self.slots)
    }

    /// How much it holds of what others sent: packets that are held, wait or are in the making, and those that its user hasn't taken,
    /// with their bytes, and acknowledgements that wait to be put out. Whatever datagrams came, from whomever and in whatever order, and
    /// whether or not the user takes, that is no more than the settings allow: for each slot 255 channels, twice as many packets as
    /// there are places (a 128th of `max_waiting`, and at least 1,024) and 255, once as many and 255 of those that weren't dispatched, twice
    /// `max_waiting` and 257 times `max_packet` bytes, and 8,192 acknowledgements. Each slot is looked at.
    pub fn held(&self) -> Held
        ensures value { result ≡ held_by self.now.slots }
        ensures bound { IsWithin result (most_held self.now.config) }
    {
        self.held_in_all()
    }
}
