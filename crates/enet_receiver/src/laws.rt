//! What holds of every receiver. These functions have no body: their contracts are laws of the definitions that the other
//! functions compute.

ghost use Rattle.std.specs.Prelude.{ℕ, ◌<◌, ◌^◌, Bool, List};
ghost use Rattle.enet_seq.specs.Numbering.{Numbering, wire, unbounded};
ghost use Rattle.enet_fragment.specs.declared.data.DataCommand.{DataCommand};
ghost use Rattle.enet_packets.specs.declared.incoming_packet.Dispatched.{Dispatched};
ghost use Rattle.enet_receiver.specs.Receiver.{Receiver, nothing_received, cleared};
ghost use Rattle.enet_receiver.specs.DataOutcome.{received};
ghost use Rattle.enet_receiver.specs.Laws.{HavePieces, NothingIsDue, DoesTheSame};
ghost use Rattle.enet_receiver.specs.Places.{TakesAPlace};
ghost use Rattle.enet_receiver.specs.Room.{HasMade, TakesRoom};
ghost use Rattle.enet_receiver.specs.Sequenced.{AreSequenced, HasSequenced};

/// In as many turns as packets are held, all is dispatched that is due, since each dispatch takes at least one of them away:
/// no whole packet stands just past the front then. Each packet is to have a piece, since one without would leave the front
/// where it is; a receiver holds none of those.
pub fn turns_suffice()
    ensures on_the_wire { (r : Receiver) → HavePieces r → NothingIsDue wire r }
    ensures without_bound { (r : Receiver) → HavePieces r → NothingIsDue unbounded r }
{}

/// What was dispatched before, taken or not, makes no difference to what a command does.
pub fn earlier_dispatches_do_not_matter()
    ensures { (g : Numbering) (most : ℕ) (r : Receiver) (c : DataCommand) (full : Bool) (earlier : List Dispatched)
        → DoesTheSame (λ s. received g most s c full) r earlier }
{}

/// No packet that comes in sequence has the flags 2, which are those of an unsequenced packet: a receiver has none at first
/// (`nothing`), and none after a command (`received`) or a clearing (`cleared`) if it had none before.
pub fn sequenced_has_other_flags()
    ensures nothing { HasSequenced nothing_received }
    ensures received { (g : Numbering) (most : ℕ) (r : Receiver) (c : DataCommand) (full : Bool) → HasSequenced r
        → HasSequenced (received g most r c full) }
    ensures cleared { (r : Receiver) → AreSequenced r.dispatched → HasSequenced (cleared r) }
{}

/// A command takes a place and room for its packet at most, and none where so much waits that no packet begins: what it has
/// dispatched were packets that had theirs. What a receiver holds is made of its pieces, 16,384 at most, and is so after the command.
pub fn a_command_takes_a_place_at_most()
    ensures place { (most : ℕ) (r : Receiver) (c : DataCommand) (full : Bool) → HavePieces r
        → TakesAPlace full r c (received wire most r c full) }
    ensures pieces { (most : ℕ) (r : Receiver) (c : DataCommand) (full : Bool) → HavePieces r
        → HavePieces (received wire most r c full) }
    ensures room { (most : ℕ) (r : Receiver) (c : DataCommand) (full : Bool) → most < 2 ^ 32 → HasMade most r
        → TakesRoom most full r c (received wire most r c full) }
    ensures made { (most : ℕ) (r : Receiver) (c : DataCommand) (full : Bool) → most < 2 ^ 32 → HasMade most r
        → HasMade most (received wire most r c full) }
{}
