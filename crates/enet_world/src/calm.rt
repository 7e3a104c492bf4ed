//! Rounds in which the network loses nothing.

ghost use Rattle.std.specs.Prelude.{◌≡◌, ◌≤◌, ◌&&◌, is_some};
ghost use Rattle.law_network.specs.Headline.{HasHeadline};
ghost use Rattle.enet_world.specs.Alone.{TellsAlone};
ghost use Rattle.enet_world.specs.Delivered.{HasDelivered};
ghost use Rattle.enet_world.specs.Progress.{GetsThrough};
ghost use Rattle.enet_world.specs.Ended.{ComesOrEnds, TellsEnds};
ghost use Rattle.enet_world.specs.Stands.{BothStand};
ghost use Rattle.enet_world.specs.Worlds.{passed_by_rounds};
ghost use Rattle.enet_world.specs.Calm.{PutsAllOut, Round, Rounds, TakesAll, both, datagram_in, event_in, is_smooth, refusals_in, stops_in};

use crate::world::{World, other};
use enet_codec::Refusal;
use law_network::{Answer, Side, WorldEvent};

/// How many datagrams a side puts out in a round, and how many events its user takes, at most.
const MOST: u64 = 65_536;

/// What a side did in rounds without losses.
#[derive(Clone, Copy)]
pub struct Share {
    /// How many datagrams it put out.
    pub sent: u64,
    /// How many of them the other side refused.
    pub refused: u64,
    /// How many of them stopped there at a command, those behind it being passed over.
    pub stopped: u64,
    /// How many events its user took.
    pub taken: u64,
    /// How often it was cut short in what it put out or its user took, for want of memory or since there was more than 65,536 of it.
    pub cut_short: u64,
}

/// What came of rounds without losses.
#[derive(Clone, Copy)]
pub struct Calm {
    /// What A did.
    pub a: Share,
    /// What B did.
    pub b: Share,
}

/// What a side put out in a round.
#[derive(Clone, Copy)]
struct Output {
    sent: u64,
    refused: u64,
    stopped: u64,
    cut: u64,
}

/// What a user took in a round.
#[derive(Clone, Copy)]
struct Takings {
    taken: u64,
    cut: u64,
}

impl Share {
    const NOTHING: Share = Share {
        sent: 0,
        refused: 0,
        stopped: 0,
        taken: 0,
        cut_short: 0,
    };

    /// Whether the other side took in all that it put out, and nothing was cut short.
    fn is_smooth(self) -> bool
        ensures { result ≡ is_smooth self }
    {
        self.refused == 0 && (self.stopped == 0 && self.cut_short == 0)
    }

    /// The sums of both.
    fn plus(self, more: Share) -> Share
        ensures { result ≡ both self more }
    {
        Share {
            sent: self.sent.saturating_add(more.sent),
            refused: self.refused.saturating_add(more.refused),
            stopped: self.stopped.saturating_add(more.stopped),
            taken: self.taken.saturating_add(more.taken),
            cut_short: self.cut_short.saturating_add(more.cut_short),
        }
    }
}

/// The number of the datagram that an answer tells of.
fn datagram_in(told: &Result<Answer, Refusal>) -> Option<u64>
    ensures { result ≡ datagram_in told.now }
{
    match told {
        Ok(Answer::Sent(number)) => *number,
        _ => None,
    }
}

/// Whether an answer tells of an event.
fn has_event(told: &Result<Answer, Refusal>) -> bool
    ensures { result ≡ is_some (event_in told.now) }
{
    match told {
        Ok(Answer::Taken(Some(_))) => true,
        _ => false,
    }
}

/// How many deliveries an answer tells were refused.
fn refusals_in(answer: &Result<Answer, Refusal>) -> u64
    ensures counted { result ≡ refusals_in answer.now }
    ensures few { result ≤ 1 }
{
    match answer {
        Ok(_) => 0,
        Err(_) => 1,
    }
}

/// How many datagrams an answer tells of that stopped at a command.
fn stops_in(answer: &Result<Answer, Refusal>) -> u64
    ensures counted { result ≡ stops_in answer.now }
    ensures few { result ≤ 1 }
{
    match answer {
        Ok(Answer::Received(received)) => { if received.stop.is_some() { 1 } else { 0 } }
        _ => 0,
    }
}

impl Calm {
    /// Whether each side took in all that the other put out, and nothing was cut short: in these rounds nothing stood in the way.
    pub fn is_smooth(&self) -> bool
        ensures { result ≡ (is_smooth self.now.a && is_smooth self.now.b) }
    {
        self.a.is_smooth() && self.b.is_smooth()
    }
}

impl World {
    /// Makes rounds happen in which the network loses nothing. In each both clocks go on by so many milliseconds, at most 60,000; then
    /// A puts out all that it may, and then B, and each datagram comes at once to the other side; and then both users take all that
    /// there is. No side puts out more than 65,536 datagrams in a round, and no user takes more events.
    ///
    /// `rounds`: this is what happens, event by event, each as `step` makes it happen, and it is counted; the counts stop at 2^64 - 1.
    /// A turn or a take that is refused for want of memory counts as one that brought nothing; a datagram that the other side refuses,
    /// also for want of memory, is counted, and doesn't come again. `passed`: both clocks' time is counted, too.
    ///
    /// `progress`: once the network loses nothing, all comes. Of each connection that is connected at both sides before the rounds and
    /// after them (`World::state`): where nothing stood in the way (`Calm::is_smooth`: no datagram of any connection was refused or
    /// stopped), and the rounds were enough, each user has taken each packet flagged RELIABLE that the other has submitted on a channel
    /// below 255, in order. Rounds are enough where in one of them all timeouts of what waited for its acknowledgement at first are over,
    /// at both, and twice as many come after it as data commands were queued or waited at first, at both, on all channels: so are as many
    /// as `World::rounds_needed` tells.
    ///
    /// `stands`: no connection is lost. Of each that is connected at both sides before the rounds both peers are connected after them,
    /// under the same names, whatever is queued, where nothing stood in the way before the last of them (in that an end would itself be in
    /// the way of what comes after it), a round takes less than 30 seconds, and what waited for its acknowledgement at first, at either,
    /// was young for rounds of this length. On channel 0xFF: once its timeout is over, and two rounds are, it is less than 30 seconds since
    /// it first went; and it went at most four times, or one round later it is less than 5 seconds since it first went or since an
    /// acknowledgement last came, whichever is later, and its timeout and a round take at most 5. On another channel, where what is due may
    /// have to wait for room: once as many rounds are over as are enough for the connection, as in `progress`, or all of them, it is less
    /// than 30 seconds since it first went; and it went at most four times, or then it is less than 5 seconds since that or since an
    /// acknowledgement last came. So it is where nothing waited.
    ///
    /// `told`: no peer that was connected goes in silence. Of each that is connected at a side before the rounds, where that side wasn't
    /// cut short (`Share::cut_short` is 0): it is connected after them, under the same name, or it is gone, and the last event that its
    /// user has taken of it, in the rounds, is its Disconnect. Or the side is A, which puts out first in a round, and the other's
    /// DISCONNECT has yet to be acknowledged (`PeerState::AckDisconnect`): of such a peer, and of one that has ended, a round that isn't
    /// cut short there tells its user. `all`: so of a connection that is connected at both sides before the rounds, where neither side is
    /// cut short: it ends at a side, whose user is told or will be; or it stands after them, and all comes, both ways, if nothing stood in
    /// the way and the rounds were enough. Where something did, nothing is said of what comes.
    ///
    /// `alone`: who is left alone is told. Of each connection whose peer is connected at a side before the rounds, while the other side's
    /// has Ended or is gone: its user has taken its Disconnect in the rounds, where its side wasn't cut short and there are (500 + 90,000 *
    /// (n + 1)) / min(`ms`, 60,000) + 5 rounds or more, rounded down, n data commands being queued at its peer: four more than take longer
    /// than a ping's interval (500 ms), and the greatest patience (30,000) and the longest timeout (60,000) together, once and for each
    /// that is queued, which may take the room of what is due. `ms` isn't 0, and both clocks together had gone on before by less than
    /// 4,293,000,000 ms (49 days), less 180,000 for each that is queued. Of one whose other end is only about to end this says nothing
    /// before that has.
    ///
    /// `delivered`: what a side has nothing left of has arrived. Where the peer of an end stands, still sends, and has no reliable command
    /// of a channel queued or unacknowledged after the rounds, each reliable packet that its user submitted there, and that went in order,
    /// was dispatched at the other end, in order, if that stands and still dispatches.
    pub fn calm(&mut self, rounds: u64, ms: u32) -> Calm
        ensures rounds { Rounds ms rounds result self.old.world self.new.world }
        ensures joined { self.new.joined ≡ self.old.joined }
        ensures passed { self.new.passed ≡ passed_by_rounds rounds ms self.old.passed }
        ensures headline { HasHeadline self.new.joined self.new.world }
        ensures delivered { HasDelivered self.new.world }
        ensures progress { GetsThrough ms rounds result self.old.world self.new.world }
        ensures told { TellsEnds rounds result self.old.world self.new.world }
        ensures all { ComesOrEnds ms rounds result self.old.world self.new.world }
        ensures stands { BothStand ms rounds self.old.world self.new.world }
        ensures alone { TellsAlone ms rounds self.old.passed result self.old.world self.new.world }
    {
        self.is_reached();
        let mut told = Calm {
            a: Share::NOTHING,
            b: Share::NOTHING,
        };
        let mut played = 0;
        'rounds: while played < rounds {
            let now = self.round(ms);
            let of_a = told.a.plus(now.a);
            let of_b = told.b.plus(now.b);
            told = Calm { a: of_a, b: of_b };
            played += 1;
        }
        self.headline();
        self.delivered();
        told
    }

    fn round(&mut self, ms: u32) -> Calm
        ensures round { Round ms result self.old.world self.new.world }
        ensures joined { self.new.joined ≡ self.old.joined }
        ensures passed { self.new.passed ≡ passed_by_rounds 1 ms self.old.passed }
    {
        let _told_a = self.happen(&WorldEvent::Tick { side: Side::A, ms });
        let _told_b = self.happen(&WorldEvent::Tick { side: Side::B, ms });
        let out_a = self.put_all_out(Side::A);
        let out_b = self.put_all_out(Side::B);
        let taken_a = self.take_all(Side::A);
        let taken_b = self.take_all(Side::B);
        Calm {
            a: Share {
                sent: out_a.sent,
                refused: out_a.refused,
                stopped: out_a.stopped,
                taken: taken_a.taken,
                cut_short: out_a.cut + taken_a.cut,
            },
            b: Share {
                sent: out_b.sent,
                refused: out_b.refused,
                stopped: out_b.stopped,
                taken: taken_b.taken,
                cut_short: out_b.cut + taken_b.cut,
            },
        }
    }

    /// A side puts out all that it may, and each datagram comes at once to the other side.
    fn put_all_out(&mut self, side: Side) -> Output
        ensures all { PutsAllOut side result.sent result.refused result.stopped result.cut self.old.world self.new.world }
        ensures few { result.cut ≤ 1 }
        ensures joined { self.new.joined ≡ self.old.joined }
        ensures passed { self.new.passed ≡ self.old.passed }
    {
        let mut sent = 0;
        let mut refused = 0;
        let mut stopped = 0;
        'turns: while sent < MOST {
            let told = self.happen(&WorldEvent::Turn { side });
            let cut = refusals_in(&told);
            let Some(k) = datagram_in(&told) else {
                return Output {
                    sent,
                    refused,
                    stopped,
                    cut,
                };
            };
            let answer = self.happen(&WorldEvent::Deliver {
                side: other(side),
                k,
            });
            refused += refusals_in(&answer);
            stopped += stops_in(&answer);
            sent += 1;
        }
        Output {
            sent,
            refused,
            stopped,
            cut: 1,
        }
    }

    /// A user takes all events that there are. How many there were.
    fn take_all(&mut self, side: Side) -> Takings
        ensures all { TakesAll side result.taken result.cut self.old.world self.new.world }
        ensures few { result.cut ≤ 1 }
        ensures joined { self.new.joined ≡ self.old.joined }
        ensures passed { self.new.passed ≡ self.old.passed }
    {
        let mut taken = 0;
        'takes: while taken < MOST {
            let told = self.happen(&WorldEvent::Take { side });
            if !has_event(&told) {
                let cut = refusals_in(&told);
                return Takings { taken, cut };
            }
            taken += 1;
        }
        Takings { taken, cut: 1 }
    }
}
