//! The headline between game threads: of a server's service and any number of clients' services, at any distinct addresses. No code.
//!
//! Proved, of the definitions that `Service::turn` and `run` promise, and of the turns of a service whose thread is the only one
//! (`RoundsOf`; wires that fail, sends that block and refused orders among them, of either kind): turns are calls of their host, and tell what these gave
//! (`each_turn_is_calls`); each call of a host is one thing that happens among hosts and strangers (`each_call_happens`); over any
//! interleaving of the calls in which the network invents nothing in a host's name and brings nothing late or of an earlier connection, the
//! headline holds at each moment of what each host accepted and told by its calls, and so, after whole turns, of the orders that its service
//! was given, and of the events that this told, and so of what game threads submitted and took at their queues, in one run after another
//! (`services_in_order`).
//! Premise, and no more: what comes from a host's address was put out by that host for this one, is at most 32,768 reliable commands late on
//! its channel, and of no earlier connection; clients ask the server alone for connections. A host is one from its opening on: what one
//! before it at its address put out comes no more.
//! Neither: that a datagram, an order or an event arrives, that a thread runs, or how long a turn takes.
#![tactic(auto)]

ghost use Rattle.law_service.specs.Law.{EachRunIsCalls, EachLifeIsCalls, EachLimitIsCall, EachRunTells, EachCallHappens};
ghost use Rattle.law_service.specs.Queues.{EachHasThread, EachLifeHasThreads, EachRunShows, EachLifeShows, EachMomentShows};
ghost use Rattle.law_service.specs.EndToEnd.{AtEachMoment, EndToEnd, BetweenThreads, NeverStuck};

/// Turns of a service, of either kind, are calls of its host, each by its contract (`calls`), also where its owner parts from peers between
/// turns (`lives`). If a limit on what its host sends is set first, that is a call, too (`limits`). What the orders that they were given
/// submitted, but for those that were refused, is what these calls submitted, and the events that they told are what these calls took
/// (`tells`).
pub fn each_turn_is_calls()
    ensures calls { EachRunIsCalls }
    ensures lives { EachLifeIsCalls }
    ensures limits { EachLimitIsCall }
    ensures tells { EachRunTells }
{}

/// Each call of a host is one thing that happens among hosts and strangers: nothing is asked of it but that the network is honest, and that
/// it asks no stranger for a connection.
pub fn each_call_happens()
    ensures { EachCallHappens }
{}

/// The headline of services, end to end.
///
/// `at_each_moment`: it holds of what each host accepted by its calls until then, and of the events that these told, whether its service goes
/// on, ended or was killed; and a connection keeps the name that the server has for its peer. `services`: after whole turns, that is what
/// each host accepted of the orders that its service was given, and the events that its service told, those that wait for room included,
/// by the names of that moment. `threads`: so it holds of the game threads of each service, one in each of its runs, of the orders that they
/// submitted, in the last run given yet or not, but for those that an event of their run refuses, and of the events that they took.
/// `queues`: the thread of a run is what a moment of the run's queues shows. `lives`: runs with such threads, from the beginning of a service
/// on, are a service with game threads.
///
/// There is such a moment of each run whose queues were opened for it and settled after it, whether it answered Ok or E14, by what
/// `Queues::open`, `beside_turns` and `settle` promise (`shown`). So any number of such runs have game threads (`all_shown`). And there is one
/// at each moment of a run, whether or not it ends, by what the rules of its queues say of each moment (`moments`).
///
/// `never_stuck`: any interleaving whose datagrams are honest, and in which clients ask the server alone, goes on so; nothing else is asked of
/// a service.
pub fn services_in_order()
    ensures at_each_moment { AtEachMoment }
    ensures services { EndToEnd }
    ensures threads { BetweenThreads }
    ensures queues { EachHasThread }
    ensures lives { EachLifeHasThreads }
    ensures shown { EachRunShows }
    ensures all_shown { EachLifeShows }
    ensures moments { EachMomentShows }
    ensures never_stuck { NeverStuck }
{}
