//! The law of one end of a connection, ours, whatever stands at the other: a client on another library, or a stranger who sends what he
//! likes. No code but the law.
//!
//! An end is a peer of ours (`enet_peer`) with each data command that came to it, what its user submitted and took, and what it put out. It
//! begins as a server's peer that answers a CONNECT, as a client's that asks, or as one that is connected. Then anything happens, any number
//! of times: commands come, well-formed ones of any content, time passes, the user submits, takes, disconnects and sets, a datagram goes. A
//! server's host may be full when its client confirms, and tell it so again, and may give the slot of a peer that waits to another. Want of
//! memory changes nothing, so it is no event.
//!
//! Proved: what the user takes is one life (`events_are_one_life`), and was carried by what came, in order, each packet whole and each
//! reliable number once; where the other end keeps the rules of the wire it follows what that end sent (`what_is_taken`). That rules
//! something out (`false_takes_are_refuted`). Each data command that goes is of what the user submitted, a sequenced one under its number
//! (`what_is_put_out`). A server's user is told of a client only once that confirmed the server's answer (`who_is_told`). A run in which a
//! packet is taken does happen (`runs_happen`). A datagram that comes is such events (`a_datagram_comes_as_commands`). Each peer of a host
//! is such an end, by the calls of the host and what came from where the peer is (`each_peer_of_a_host`). Not promised: that an unsequenced
//! packet is taken once, or that anything arrives.
#![tactic(auto)]

ghost use Rattle.std.specs.Prelude.{ℕ, ◌⊎◌, true, false, List, [], ◌∷◌};
ghost use Rattle.enet_codec.specs.declared.event.Received.{Received};
ghost use Rattle.enet_packets.specs.declared.incoming_packet.Dispatched.{Dispatched};
ghost use Rattle.enet_peer.specs.Peering.{Peering};
ghost use Rattle.enet_peer.specs.Handling.{Arrival, Handles, Hears};
ghost use Rattle.law_one_end.specs.OneEnd.{Heard, OneEnd, TellAgain, Happens, with_peer};
ghost use Rattle.law_one_end.specs.Datagrams.{HasCome};
ghost use Rattle.law_one_end.specs.Law.{HasOneLife, IsHeard, OfEachAnswering, OfEachAsking, OfEachJoined};
ghost use Rattle.law_one_end.specs.Sent.{IsSent};
ghost use Rattle.law_one_end.specs.Confirmed.{AnsweringIsConfirmed};
ghost use Rattle.law_one_end.specs.Refuted.{CameElsewhere, ForeignIsRefused, GuessIsRefused, HastyIsRefused, IsNoEnds, IsRefused, MisdirectedIsRefused, PacketFirstIsRefused, TwoEndsAreRefused, command_at, command_of, packet_of};
ghost use Rattle.law_one_end.specs.Examples.{OfSomeRun, HasTaken};
ghost use Rattle.law_one_end.specs.Hosts.{EachIsOneEnd};

use enet_host::HostCore;

/// What an end's user takes, over every list of events, whoever sends. An unsequenced packet is one that came so, on its channel and with its
/// bytes (`loose` of `IsHeard`). Of each channel, these apart:
///
/// Whatever comes (`carried` of `IsHeard`): the reliable packets that are taken have the numbers from 1 on, without a gap and each once, a
/// packet as many as it has pieces; each piece is the payload of a command that came under that number modulo 65,536, and the packet is its
/// pieces. An unreliable packet was carried whole by commands that came, of the reliable number that was dispatched last before it, and the
/// unreliable numbers between two reliable packets go up.
///
/// If the other end keeps the rules (`follows`, `KeepsRules`), what is taken follows what that end sent: some of its packets, in order, each
/// once and whole, none reliable left out before the last. It has to number its packets as ENet does, to cut them evenly into at most 16,384
/// pieces, and nothing of its may come when the receiver stands over 32,768 reliable commands past it, or over 65,535 before.
///
/// Whenever a command comes (`stood`), as many reliable commands had been dispatched as the user had taken reliable packets, or more; and each
/// number up to there had come. So `KeepsRules`, which goes by that number, can be told by what came and what was taken.
///
/// `answering`, `asking`, `joined`: so it is of a server's peer, of a client's, and of one that is connected from the start.
pub fn what_is_taken()
    ensures answering { OfEachAnswering IsHeard }
    ensures asking { OfEachAsking IsHeard }
    ensures joined { OfEachJoined IsHeard }
{}

/// What an end's user takes is one life, over the same lists of events: at most one Connect, and only first; packets after it; at most one
/// Disconnect, and only last. One that is connected from the start has no Connect.
pub fn events_are_one_life()
    ensures answering { OfEachAnswering (HasOneLife false) }
    ensures asking { OfEachAsking (HasOneLife false) }
    ensures joined { OfEachJoined (HasOneLife true) }
{}

/// What an end puts out, over the same lists of events: each sequenced data command is a piece of a packet that its user submitted on that
/// channel, in the form in which that packet is carried and under the number that its place in the order of submission gives it, whatever
/// acknowledgements come. So the numbers, modulo 65,536, tell the other end the order of submission, and no command goes under a number that
/// isn't its place's. Each unsequenced one has a packet that its user submitted on that channel to go so, whole (`loose` of `IsSent`).
pub fn what_is_put_out()
    ensures answering { OfEachAnswering IsSent }
    ensures asking { OfEachAsking IsSent }
    ensures joined { OfEachJoined IsSent }
{}

/// Whom a server's user is told of, over the same lists of events: if it was told that a client connected, an acknowledgement of the server's
/// answer (VERIFY_CONNECT) had come, which repeats the answer's number and the very time that a datagram told in which the answer went before.
/// A host with a secret draws the number, and what is added to the time (`drawn` of `enet_slot`), so that who doesn't see the datagram has to
/// guess both.
pub fn who_is_told()
    ensures { AnsweringIsConfirmed }
{}

/// A datagram is some of these events. Where a peer is handed the commands of one (`Handles`), it fares as by some of those at the front of its
/// bytes, one after another; how many isn't said (`commands`). A datagram that comes to a peer (`Hears`, the contract of
/// `enet_peer::receive`) does that, or it is one event: the peer was refused, and is told so again (`datagram`).
pub fn a_datagram_comes_as_commands()
    ensures commands { (a : Arrival) (handled : ℕ) (bytes : List ℕ) (answer : Received) (e : OneEnd) (q : Peering)
        → Handles a (record { handled = handled; peer = e.peer }) bytes answer q → HasCome a bytes e q }
    ensures datagram { (a : Arrival) (bytes : List ℕ) (answer : Received) (e : OneEnd) (q : Peering)
        → Hears a bytes e.peer answer q → HasCome a bytes e q ⊎ Happens e TellAgain (with_peer e q) }
{}

/// Each peer of a host that there is, by the calls of the host alone (those of `law_network`: no broadcast), whoever sends: datagrams from any
/// address, submissions, disconnects, settings, ticks, turns and takes, each with what was answered (`Steps`). Of each name that nobody has
/// at first, nothing is told, submitted or put out (`IsNobody`); or its peer began by one of these calls, a `connect` of the user's or a
/// CONNECT that came, at an address where it stayed, and is one end since (`IsEnd`). What the user was told of it is that end's, and one
/// life; what it accepted is that end's, too. So the laws above hold of it. What happens at that end is, call by call, what fell to the
/// peer (`FellAll` of `law_network`), and no more. The commands that came to it are, in order, those at the fronts of the datagrams that
/// came since, from that address and with the number of its slot in their headers. Each datagram that it put out went there, and has the
/// commands that the end put out, in order. If one of these is a server's answer (VERIFY_CONNECT), it tells the client that slot (`slot`).
pub fn each_peer_of_a_host(host: &HostCore)
    ensures { EachIsOneEnd host.now }
{
    host.keeps();
}

/// What `carried` of `IsHeard` rules out of channel 0: that anything is taken of it where nothing came on it, but on others perhaps
/// (`elsewhere`). And, each where reliable commands of one byte came: a packet twice (`twice`), the second packet without the first (`gap`),
/// two packets the other way round (`swapped`), and a packet with another byte (`altered`).
///
/// Of `stood`: that a command came when a reliable packet had been taken and the receiver stood before it (`passed_by`), or when the receiver
/// stood past a number that hadn't come (`hurried`).
///
/// And what `IsEnd` rules out of a host: that its user takes a packet of a peer where since the CONNECT a datagram came from another address
/// alone, whatever it holds (`foreign`), or one that names another slot (`misdirected`); and that its user is told of the connection where
/// nothing came since (`hasty`). Nor is a peer's first event a packet (`packet_first`), or an event told after its end, as a second end is
/// (`two_ends`). And of `IsConfirmed`, that where one datagram went and one command came, the user is told of a client by another
/// command than the acknowledgement that repeats the answer's number and the time that the datagram told (`guessed`).
pub fn false_takes_are_refuted()
    ensures elsewhere { (came : List Heard) (d : Dispatched) (ds : List Dispatched) → CameElsewhere 0 came → IsRefused came (d ∷ ds) }
    ensures twice { IsRefused (command_of 1 7 ∷ []) (packet_of 7 ∷ packet_of 7 ∷ []) }
    ensures gap { IsRefused (command_of 2 7 ∷ []) (packet_of 7 ∷ []) }
    ensures swapped { IsRefused (command_of 1 7 ∷ command_of 2 8 ∷ []) (packet_of 8 ∷ packet_of 7 ∷ []) }
    ensures altered { IsRefused (command_of 1 7 ∷ []) (packet_of 8 ∷ []) }
    ensures passed_by { IsNoEnds (command_of 1 7 ∷ command_at 0 1 ∷ []) }
    ensures hurried { IsNoEnds (command_of 1 7 ∷ command_at 2 0 ∷ []) }
    ensures foreign { ForeignIsRefused }
    ensures misdirected { MisdirectedIsRefused }
    ensures hasty { HastyIsRefused }
    ensures packet_first { PacketFirstIsRefused }
    ensures two_ends { TwoEndsAreRefused }
    ensures guessed { GuessIsRefused }
{}

/// A run that does happen, so that the laws above speak of something: a reliable packet of a client that keeps the rules comes, and is taken.
pub fn runs_happen()
    ensures { OfSomeRun HasTaken }
{}
