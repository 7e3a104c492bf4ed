//! The headline through the relay: of each two clients of a `ChatServer`, what the one takes of what the other submitted. No code.
//!
//! Proved, of the contracts of `ChatServer`'s runs (`Serves`) and of the laws of services: what the server's service is given for a peer
//! is the chat for it (`relay_rule`); of each pair (i, j) of clients, what j takes on channel 0 of what i submitted there is whole, each
//! once, in i's order, from some packet on, since j hears from its Connect on, and leaves out nothing flagged RELIABLE before the last
//! (`each_pair`), but for orders that were refused, which are named (`refused_left_out`); on channel 1 it takes some of what i submitted
//! there, each whole and once, in order; so it is of any runs of a `ChatServer`, one after another (`chat_server_in_order`), also where
//! `ChatServer::order` was given ends of connections between them (a kick, a ban, `end_of_slow`).
//! So it is, too, where the last of them ended by E14, if its queues were settled, where it had two threads (`cut_off`); and after any turn of
//! a run of two threads that goes on (`serves_on`).
//! Premise: that of `law_service`, and for a run that goes on what the rules of its queues say of each moment, and what the relay did until
//! then. Where the server takes leave of its clients after the runs, `ChatServer::take_leave` says what it does then (`TakesLeave`).
//! Neither: a run that ended in another error, of which `serve` promises nothing, or that comes after an order of a packet given by
//! `ChatServer::order`; nor is it said of what i submitted unsequenced, on either channel.
#![tactic(auto)]

ghost use Rattle.law_relay.specs.Chat.{EachServed, EachHasServed, EachCutOff, EachServesOn, OfChatServer, OfChatThreads};
ghost use Rattle.law_relay.specs.Relay.{RelayRule, BetweenClients};
ghost use Rattle.law_relay.specs.Pairs.{BetweenPairs};
ghost use Rattle.law_relay.specs.Refusals.{EachHasAnswers, BetweenClientsUnless, BetweenPairsUnless};
ghost use Rattle.law_relay.specs.Unreliable.{BetweenPairsOnOne};

/// What the server's service is given for a peer is the chat for it: each packet of another peer that came while it was in the table,
/// once and in order (`rule`). So what a client takes follows the chat for it, where none of its orders was refused (`order`).
pub fn relay_rule()
    ensures rule { RelayRule }
    ensures order { BetweenClients }
{}

/// What client j takes on channel 0 is, of each other client i, what that submitted there from some packet on: each once, in order, and
/// none that is flagged RELIABLE left out before the last, where no order for j was refused.
pub fn each_pair()
    ensures { BetweenPairs }
{}

/// Each order that the service was given was answered, and the events name those that were refused (`answers`). What a client takes
/// follows the chat for it, but for those whose order was refused (`order`), and so it is of each pair of clients (`pairs`). On channel 1,
/// where orders go unreliably, a client takes of each other some of what that submitted there, each whole and once, in order (`on_one`).
pub fn refused_left_out()
    ensures answers { EachHasAnswers }
    ensures order { BetweenClientsUnless }
    ensures pairs { BetweenPairsUnless }
    ensures on_one { BetweenPairsOnOne }
{}

/// Any runs of a server, one after another, are as one, which has their turns and expanded their events (`runs`). Between two of them,
/// before and after them the server may be given orders that end connections: these come among the relay's. From a fresh server on the runs
/// make a service's turns, of which its wire told, and a relay's work, also where it takes leave after them (`served`), and where the wire
/// cut off the last of them, with E14 (`cut_off`). So does a run of two threads that goes on, after any of its turns (`serves_on`). So what
/// its clients take is in order: of each other, each once, and without a gap (`chats`); and so what their game threads take (`threads`). In
/// `chats` the names of its peers are those of the last moment of all, to which each connection has kept its own.
pub fn chat_server_in_order()
    ensures runs { EachServed }
    ensures served { EachHasServed }
    ensures cut_off { EachCutOff }
    ensures serves_on { EachServesOn }
    ensures chats { OfChatServer }
    ensures threads { OfChatThreads }
{}
