//! What a channel's receiver foresees of a sequenced data command that comes.

ghost use Rattle.std.specs.Prelude.{◌≡◌, ◌<◌};
ghost use Rattle.enet_seq.specs.Windows as windows;
ghost use Rattle.enet_inbox.specs.DataEffect.{is_waiting};
ghost use Rattle.enet_receiver.specs.ArrivingData.{data_command};
ghost use Rattle.enet_receiver.specs.DataOutcome.{is_next};
ghost use Rattle.enet_inbox.specs.InboxParts.{seen, told};
ghost use Rattle.enet_inbox.specs.Private.InboxParts.{answer_where};

use enet_codec::{Command, Head, Stop};
use enet_receiver::{ArrivingData, Foresight, Incoming, Took};

/// What becomes of a data command that nothing stops, as it is handed on to the call that takes it in.
#[derive(Clone, Copy, PartialEq, Eq)]
pub struct Foreseen {
    /// Whether it may be acknowledged, if it asks for it.
    pub acknowledged: bool,
    /// Whether something of it is kept.
    pub kept: bool,
    /// Whether it makes room for itself, so that the unreliable packets that wait are given up.
    pub makes_room: bool,
    /// How many packets it dispatches; 0 where it makes room for itself, since that isn't looked at before.
    pub dispatches: u32,
}

/// What a receiver's foresight means for a datagram: why it is stopped, or what becomes of the command.
pub(crate) fn seen(foresight: Foresight) -> Result<Foreseen, Stop>
    ensures { result ≡ seen foresight }
{
    let kept = match foresight.took {
        Took::Held => true,
        Took::Again | Took::Outside => false,
        Took::Bad => return Err(Stop::BadFragment),
        Took::Waiting => return Err(Stop::Waiting),
        Took::Memory => return Err(Stop::Memory),
    };
    Ok(Foreseen {
        acknowledged: foresight.acknowledged,
        kept,
        makes_room: false,
        dispatches: foresight.dispatches,
    })
}

/// Whether a command finds no room to begin its packet.
pub(crate) fn finds_no_room(foreseen: &Result<Foreseen, Stop>) -> bool
    ensures { result ≡ is_waiting (told foreseen.now) }
{
    matches!(foreseen, Err(Stop::Waiting))
}

/// Whether the window of a channel lets a command of this number be acknowledged. It looks at nothing but the number, so an
/// empty unreliable packet of the number stands for all.
pub(crate) fn acknowledges(receiver: &Incoming, head: Head) -> bool
    requires { receiver.now.receiver.front < 65536 }
    ensures { result ≡ windows.acknowledges receiver.now.receiver.front head.number }
{
    let stand_in = Command::SendUnreliable {
        head,
        unreliable: 0,
        payload: &[],
    };
    receiver.foresee(&stand_in, false).acknowledged
}

/// Whether a command that found no room may be acknowledged once the unreliable packets that wait have given way, and there is room, or why
/// it is still stopped: one of the packet that its channel dispatches next finds no room by that.
pub(crate) fn answer_in_room(receiver: &Incoming, arriving: ArrivingData<'_>) -> Result<bool, Stop>
    requires { receiver.now.receiver.front < 65536 }
    ensures { result ≡ answer_where (is_next receiver.now.receiver (data_command arriving.entry)) receiver.now (data_command arriving.entry) }
{
    if receiver.is_next(arriving) {
        return Err(Stop::Waiting);
    }
    Ok(acknowledges(receiver, arriving.head))
}
