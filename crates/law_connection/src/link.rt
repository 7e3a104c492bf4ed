//! Laws of one channel from a sender to a receiver, whatever the network loses, repeats or reorders. No code but the laws.
//!
//! They speak of the definitions that the contracts of `enet_sender::Outgoing` and `enet_receiver::Incoming` name. A link is
//! sender, receiver and everything that was ever put out both ways.
//!
//! Proved over every list of events from the empty link (submissions, first sends, resends, drops by the throttle, datagrams
//! put out, arrivals at any later time and any number of times, acknowledgements, a receiving end that gives up the unreliable
//! packets that wait or are in the making, ends that stop) in which no command and no acknowledgement comes more than 32,768 late, for an mtu above 28 and packets of at most 16,384 pieces, with no invariant
//! as a premise: what was dispatched is a subsequence of what was submitted, each packet whole and once, leaving out no
//! reliable packet before its last (`one_link`, clause `follows`); an acknowledgement removes only what was dispatched or is
//! held, unless the receiver no longer dispatches, the receiver's front stays within 24,575 numbers of the greatest number
//! sent, every command that isn't late is read as it was meant or as nothing, and compared with pieces of its own packet
//! alone, and all pieces that are held under one number are of one packet (`keeps`); each command that is put out is read
//! again as itself (`reads`). A receiver with wire numbers does with every command, hostile ones too, what one with
//! unbounded numbers does (`wire_receiver`), and a sender with wire numbers does in each of its calls what one with
//! unbounded numbers does (`wire_sender`).
//! Neither: that the two receivers count equally many bytes as held.

ghost use Rattle.std.specs.Prelude.{◌≡◌, ℕ, ◌+◌, ◌%◌, ◌<◌, ◌≤◌, Bool, true, List, length, Some};
ghost use Rattle.enet_seq.specs.Numbering.{wire, unbounded};
ghost use Rattle.enet_rtt.specs.declared.transmission.Tick.{Tick};
ghost use Rattle.enet_rtt.specs.declared.expiry.Patience.{Patience};
ghost use Rattle.enet_rtt.specs.declared.expiry.Expiry.{Expiry};
ghost use Rattle.enet_fragment.specs.declared.data.DataCommand.{DataCommand};
ghost use Rattle.enet_fragment.specs.DataCommand.{piece_of};
ghost use Rattle.enet_receiver.specs.Receiver.{Receiver, nothing_received, without_waiting};
ghost use Rattle.enet_receiver.specs.Receiver as receiver;
ghost use Rattle.enet_receiver.specs.DataOutcome.{outcome, received, dispatch_count};
ghost use Rattle.enet_receiver.specs.DataOutcome as reception;
ghost use Rattle.enet_sender.specs.CommandChoice.{Packet};
ghost use Rattle.enet_sender.specs.declared.outgoing.Occasion.{Occasion};
ghost use Rattle.enet_sender.specs.Sender.{Sender, Next, nothing_sent, submitted, next, with_skipped, after_acknowledgement, acknowledged, bytes_in_transit, prices_in_transit, with_marked, lateness, after_lateness, cleared, left};
ghost use Rattle.law_connection.specs.Follows.{Follows};
ghost use Rattle.law_connection.specs.Link.{PutOut};
ghost use Rattle.law_connection.specs.Meant.{IsReadAsItself};
ghost use Rattle.law_connection.specs.Image.{ShowsReceiver, ShowsSender, ShowsNext, reached};
ghost use Rattle.law_connection.specs.Greatest.{greatest_after, greatest_over};
ghost use Rattle.law_connection.specs.FirstSends.{first_sends, first_sends_of, numbers_sent};
ghost use Rattle.law_connection.specs.LinkSteps.{Has, Event, Happens, Runs, fresh_link, bodies_of};
ghost use Rattle.law_connection.specs.WireLink.{WireLink};
ghost use Rattle.law_connection.specs.Keeps.{Keeps};

/// One channel of one connection, over every list of events: submissions, first sends, resends, datagrams put out, commands
/// and acknowledgements that come at any later time, any number of times and in any order, or never, packets that the
/// throttle drops, a receiving end that gives up the unreliable packets that wait or are in the making, an end that stops
/// sending or receiving. No command and no acknowledgement comes more than 32,768 late.
///
/// `follows`: what was dispatched is a subsequence of what was submitted, each packet whole, that leaves out no reliable
/// packet before its last. `keeps`: an acknowledgement removes only what was dispatched or is held, unless the receiver no
/// longer dispatches; the receiver's front is at most 16,384 numbers behind the oldest that was not acknowledged and at most
/// 24,575 behind the greatest number sent, and never ahead of it; every command that isn't late is read as it was meant or
/// as nothing, and compared with pieces of its own packet alone, and all pieces that are held or wait under one number are
/// of one packet. `reads`: each command that was put out is read from its message as that very command.
pub fn one_link()
    ensures follows { (mtu : ℕ) (events : List Event) (link : WireLink) → 28 < mtu → Runs mtu events fresh_link link
        → Follows mtu link.submitted (bodies_of link.incoming.dispatched) }
    ensures keeps { (mtu : ℕ) (events : List Event) (link : WireLink) → 28 < mtu → Runs mtu events fresh_link link → Keeps mtu link }
    ensures reads { (mtu : ℕ) (events : List Event) (link : WireLink) → 28 < mtu → Runs mtu events fresh_link link
        → (c : PutOut) → Has link.commands c → IsReadAsItself c.command }
{}

/// The greatest number sent on one channel, over every list of events of it.
///
/// `counts`: it is how many reliable commands went for the first time. `grows`: each event adds what goes by it, which is at
/// most one command. `reckoned`: it is told by the wire numbers of all commands that went, in order. `bounded`: it is at most
/// as great as these are many. `steps`: whatever comes next, such a reckoning never falls, and rises by less than 32,768.
pub fn greatest_sent()
    ensures counts { (mtu : ℕ) (events : List Event) (link : WireLink) → 28 < mtu → (run : Runs mtu events fresh_link link)
        → link.greatest ≡ first_sends_of mtu events fresh_link link run }
    ensures grows { (mtu : ℕ) (events : List Event) (event : Event) (link after : WireLink) → 28 < mtu → Runs mtu events fresh_link link
        → Happens mtu event link after → (after.greatest ≡ link.greatest + first_sends event link after) × (first_sends event link after ≤ 1) }
    ensures reckoned { (mtu : ℕ) (events : List Event) (link : WireLink) → 28 < mtu → Runs mtu events fresh_link link
        → link.greatest ≡ greatest_over 0 (numbers_sent link) }
    ensures bounded { (mtu : ℕ) (events : List Event) (link : WireLink) → 28 < mtu → Runs mtu events fresh_link link
        → link.greatest ≤ length link.commands + length link.making }
    ensures steps { (greatest number : ℕ) → (greatest ≤ greatest_after greatest number) × (greatest_after greatest number < greatest + 32768) }
{}

/// A receiver that keeps wire numbers does with every command what one with unbounded numbers does: it begins as the other's
/// image (`nothing`), and a command has the same outcome, is acknowledged where it is at the other, dispatches as many
/// packets, and leaves it the other's image (`receiver`), as giving up what waits (`given_up`) and a clearing do. The command's number, and the start of a
/// reliable one's packet, are numbers of 16 bits. `max_packet` is the greatest packet that is taken in, in bytes, and `full`
/// says that too many bytes wait.
pub fn wire_receiver()
    ensures nothing { ShowsReceiver nothing_received nothing_received }
    ensures outcome { (max_packet : ℕ) (v r : Receiver) (c : DataCommand) (full : Bool) → c.number < 65536 → (c.reliable ≡ true → (piece_of c).start < 65536) → ShowsReceiver v r
        → outcome wire max_packet v c full ≡ outcome unbounded max_packet r c full }
    ensures receiver { (max_packet : ℕ) (v r : Receiver) (c : DataCommand) (full : Bool) → c.number < 65536 → (c.reliable ≡ true → (piece_of c).start < 65536) → ShowsReceiver v r
        → ShowsReceiver (received wire max_packet v c full) (received unbounded max_packet r c full) }
    ensures acknowledged { (max_packet : ℕ) (v r : Receiver) (c : DataCommand) (full : Bool) → c.number < 65536 → (c.reliable ≡ true → (piece_of c).start < 65536) → ShowsReceiver v r
        → reception.acknowledged wire max_packet v c full ≡ reception.acknowledged unbounded max_packet r c full }
    ensures dispatches { (max_packet : ℕ) (v r : Receiver) (c : DataCommand) (full : Bool) → c.number < 65536 → (c.reliable ≡ true → (piece_of c).start < 65536) → ShowsReceiver v r
        → dispatch_count wire max_packet v c full ≡ dispatch_count unbounded max_packet r c full }
    ensures given_up { (v r : Receiver) → ShowsReceiver v r → ShowsReceiver (without_waiting v) (without_waiting r) }
    ensures cleared { (v r : Receiver) → ShowsReceiver v r → ShowsReceiver (receiver.cleared v) (receiver.cleared r) }
{}

/// A sender that keeps wire numbers does at every call what one with unbounded numbers does. It begins as the other's image
/// (`nothing`), and each call on both leaves it so and gives the same. `next`: both have nothing due, or the one has the
/// other's command on the wire. `acknowledged`, `told`: this holds of an acknowledgement of a number that is not
/// above the greatest sent, and at most 65,535 below it. `reads_queued`, `reads_next`: what is queued, and what is due next,
/// is read from its message as that very command. Times are in milliseconds.
pub fn wire_sender()
    ensures nothing { ShowsSender nothing_sent nothing_sent }
    ensures submitted { (mtu : ℕ) (v s : Sender) (p : Packet) → ShowsSender v s → ShowsSender (submitted wire mtu v p) (submitted unbounded mtu s p) }
    ensures next { (occasion : Occasion) (v s : Sender) → ShowsSender v s → ShowsNext (next wire occasion v) (next unbounded occasion s) }
    ensures skipped { (v s : Sender) → ShowsSender v s → ShowsSender (with_skipped v) (with_skipped s) }
    ensures acknowledged { (v s : Sender) (n : ℕ) → n ≤ reached s → reached s < n + 65536 → ShowsSender v s → ShowsSender (after_acknowledgement v (n % 65536)) (after_acknowledgement s n) }
    ensures told { (v s : Sender) (n time : ℕ) → n ≤ reached s → reached s < n + 65536 → ShowsSender v s → acknowledged v (n % 65536) time ≡ acknowledged s n time }
    ensures in_transit { (v s : Sender) → ShowsSender v s → bytes_in_transit v ≡ bytes_in_transit s }
    ensures prices { (v s : Sender) → ShowsSender v s → prices_in_transit v ≡ prices_in_transit s }
    ensures marked { (tick : Tick) (v s : Sender) → ShowsSender v s → ShowsSender (with_marked tick v) (with_marked tick s) }
    ensures lateness { (now : ℕ) (patience : Patience) (heard : ℕ) (v s : Sender) → ShowsSender v s → lateness now patience heard v ≡ lateness now patience heard s }
    ensures after_lateness { (expiry : Expiry) (tick : Tick) (v s : Sender) → ShowsSender v s → ShowsSender (after_lateness expiry tick v) (after_lateness expiry tick s) }
    ensures cleared { (v s : Sender) → ShowsSender v s → ShowsSender (cleared v) (cleared s) }
    ensures left { (v s : Sender) → ShowsSender v s → left v ≡ left s }
    ensures reads_queued { (v s : Sender) (c : DataCommand) → ShowsSender v s → Has v.queued c → IsReadAsItself c }
    ensures reads_next { (occasion : Occasion) (v s : Sender) (n : Next) → ShowsSender v s → next wire occasion v ≡ Some n → IsReadAsItself n.command }
{}
