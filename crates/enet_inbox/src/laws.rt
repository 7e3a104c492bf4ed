//! What holds of every inbox. This function has no body: its contract is a law of the definitions that the calls of `Inbox`
//! compute.

ghost use Rattle.std.specs.Prelude.{◌≡◌, ◌≢◌, Err, false};
ghost use Rattle.enet_codec.specs.declared.stop.Stop.{Stop};
ghost use Rattle.enet_codec.specs.declared.stop.Stop.TheVariants as stop;
ghost use Rattle.enet_codec.specs.Message.{Message};
ghost use Rattle.enet_inbox.specs.Inbox.{Inbox};
ghost use Rattle.enet_inbox.specs.DataEffect.{arrival, is_kept, passed_over};

/// A data command that stops its datagram changes nothing, nor does one of which nothing is kept; and neither a command that
/// comes nor one that is passed over is stopped for want of memory where there is enough.
pub fn a_stop_changes_nothing()
    ensures unchanged { (b : Inbox) (m : Message) (why : Stop) → (arrival b m).answer ≡ Err why → (arrival b m).after ≡ b }
    ensures kept { (b : Inbox) (m : Message) → is_kept b m ≡ false → (arrival b m).after ≡ b }
    ensures arrived { (b : Inbox) (m : Message) → (arrival b m).answer ≢ Err stop.Memory }
    ensures passed { (b : Inbox) (m : Message) → passed_over b m ≢ Err stop.Memory }
{}
