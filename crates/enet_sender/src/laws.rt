//! What the definitions of a sender promise. These functions have no body: their contracts are laws of the definitions that
//! the calls compute, for wire numbers and for numbers without bound.

ghost use Rattle.std.specs.Prelude.{◌≡◌, ℕ, ◌+◌, ◌≤◌, Some, sum_by};
ghost use Rattle.enet_seq.specs.Numbering.{Numbering};
ghost use Rattle.enet_sender.specs.CommandChoice.{Packet};
ghost use Rattle.enet_rtt.specs.declared.transmission.Tick.{Tick};
ghost use Rattle.enet_sender.specs.declared.outgoing.Occasion.{Occasion};
ghost use Rattle.enet_sender.specs.Sender.{Sender, Next, next, submitted, with_skipped, after_match, acknowledged, bytes_leaving, price_leaving, with_marked, late_bytes, late_price, lost_price, cleared, bytes_in_transit, prices_in_transit, left};

/// How the payload bytes of what is in transit change: what is due next adds just the bytes that it tells, an acknowledgement takes out
/// those of the command that it tells of, unless that was due to go again, what becomes late takes out its own, `clear` takes out all, and
/// nothing else changes them.
pub fn transit_follows()
    ensures next { (g : Numbering) (occasion : Occasion) (s : Sender) (n : Next) → next g occasion s ≡ Some n
        → bytes_in_transit n.sender ≡ bytes_in_transit s + n.added }
    ensures acknowledged { (s : Sender) (number time : ℕ)
        → bytes_in_transit (after_match s number (acknowledged s number time)) + bytes_leaving (acknowledged s number time) ≡ bytes_in_transit s }
    ensures submitted { (g : Numbering) (mtu : ℕ) (s : Sender) (p : Packet) → bytes_in_transit (submitted g mtu s p) ≡ bytes_in_transit s }
    ensures skipped { (s : Sender) → bytes_in_transit (with_skipped s) ≡ bytes_in_transit s }
    ensures marked { (tick : Tick) (s : Sender) → bytes_in_transit (with_marked tick s) + sum_by (late_bytes tick) s.sent ≡ bytes_in_transit s }
    ensures cleared { (s : Sender) → bytes_in_transit (cleared s) ≡ 0 }
{}

/// How the prices of what is in transit change: in the same way. What was lost is of what is late.
pub fn prices_follow()
    ensures next { (g : Numbering) (occasion : Occasion) (s : Sender) (n : Next) → next g occasion s ≡ Some n
        → prices_in_transit n.sender ≡ prices_in_transit s + n.price }
    ensures acknowledged { (s : Sender) (number time : ℕ)
        → prices_in_transit (after_match s number (acknowledged s number time)) + price_leaving (acknowledged s number time) ≡ prices_in_transit s }
    ensures submitted { (g : Numbering) (mtu : ℕ) (s : Sender) (p : Packet) → prices_in_transit (submitted g mtu s p) ≡ prices_in_transit s }
    ensures skipped { (s : Sender) → prices_in_transit (with_skipped s) ≡ prices_in_transit s }
    ensures marked { (tick : Tick) (s : Sender) → prices_in_transit (with_marked tick s) + sum_by (late_price tick) s.sent ≡ prices_in_transit s }
    ensures lost { (tick : Tick) (s : Sender) → sum_by (lost_price tick) s.sent ≤ sum_by (late_price tick) s.sent }
    ensures cleared { (s : Sender) → prices_in_transit (cleared s) ≡ 0 }
{}

/// What is sent stays left: whether a reliable command is queued or unacknowledged is the same after what is due next, after
/// a skip and after a mark.
pub fn reliable_stays_left()
    ensures next { (g : Numbering) (occasion : Occasion) (s : Sender) (n : Next) → next g occasion s ≡ Some n
        → (left n.sender).reliable ≡ (left s).reliable }
    ensures skipped { (s : Sender) → (left (with_skipped s)).reliable ≡ (left s).reliable }
    ensures marked { (tick : Tick) (s : Sender) → left (with_marked tick s) ≡ left s }
{}
