//! Laws of the machine's step: each function does nothing, and its contract is the law.

ghost use Rattle.std.specs.Prelude.{◌≡◌};
ghost use Rattle.route_core.specs.declared.request.TheConstants.{MOST_BYTES};
ghost use Rattle.route_core.specs.declared.written.TheConstants.{MOST_WRITTEN};
ghost use Rattle.route_core.specs.CauseLaws.{AnswerHasACause, CountedIsAStep, OthersLeaveTheCount};
ghost use Rattle.route_core.specs.Few.{EffectsAreFew, StepsBringFew};
ghost use Rattle.route_core.specs.Queues.{KeptIsOfWhatItMet, LossesDisturbNobody, OpensWithNothing, WaitsIsOfWhatItHeard};
ghost use Rattle.route_core.specs.RefusalLaws.{EffectsHaveMemory, LeftOutForRoom, NoMemoryKeepsAll, RefusalKeepsInterfaces, RefusalKeepsRoutes, RefusalKeepsSockets};
ghost use Rattle.route_core.specs.Undisturbed.{OthersAreNotNeeded, OthersDoNotDisturb};
ghost use Rattle.route_core.specs.Worlds.{EmptyIsWorld, FoundAddressIsThere, GoneAddressShowsItsInterface, NewAddressShowsItsInterface, RoutesHaveInterfaces, StepsKeepWorlds};

/// A refused command leaves every route as it was, but a packet, which clones and counts before its route refuses it.
pub fn refusal_keeps_routes()
    ensures { RefusalKeepsRoutes }
{}

/// A refused command leaves every interface as it was, but that an `addr` whose route is there already keeps its
/// address.
pub fn refusal_keeps_interfaces()
    ensures { RefusalKeepsInterfaces }
{}

/// A refused command leaves every socket as it was, but that messages may be delivered: of a write the reply, with its
/// writer's pid but where its version is not 3, to those who hear the family of its destination, or the family 0; of a
/// redirect that it came, and why it was refused; and of a packet those of its look-up.
pub fn refusal_keeps_sockets()
    ensures { RefusalKeepsSockets }
{}

/// A step that answers that there is no memory has changed nothing at all.
pub fn no_memory_keeps_all()
    ensures { NoMemoryKeepsAll }
{}

/// The machine never answers that there is no memory.
pub fn effects_have_memory()
    ensures { EffectsHaveMemory }
{}

/// The machine leaves messages of a dump out for want of room alone.
pub fn left_out_for_room()
    ensures { LeftOutForRoom }
{}

/// An answer that there is no memory has a cause. A counted step is one of the machine's or one that finds
/// no memory, answers so exactly where the count of refusals rose, and leaves the count where its command takes no
/// memory.
pub fn no_memory_has_a_cause()
    ensures step { CountedIsAStep }
    ensures cause { AnswerHasACause }
    ensures others { OthersLeaveTheCount }
{}

/// What holds of the empty world stays with every step: the table is in table order with no pair twice, each route
/// leads out of one of the interfaces, by way of an address, and clones under a mask or without one, and neither a
/// number of an address nor an id of a socket is told twice.
pub fn steps_keep_worlds()
    ensures empty { EmptyIsWorld }
    ensures steps { StepsKeepWorlds }
{}

/// The interface of each route is there, and has the route's interface address.
pub fn routes_have_interfaces()
    ensures { RoutesHaveInterfaces }
{}

/// The messages of a new address show the number and the link-layer address of the interface that it was added to.
pub fn new_address_shows_its_interface()
    ensures { NewAddressShowsItsInterface }
{}

/// An address that is found on an interface stands there, and its number is told of that interface.
pub fn found_address_is_there()
    ensures { FoundAddressIsThere }
{}

/// Of an address that goes nothing is told where it takes no route away; and else that the route is deleted, and then
/// that the address goes, with the number and the link-layer address of the interface that it was found on.
pub fn gone_address_shows_its_interface()
    ensures { GoneAddressShowsItsInterface }
{}

/// One step puts at most two routes into the table that were not there, and tells at most two messages.
pub fn steps_bring_few()
    ensures effects { EffectsAreFew }
    ensures steps { StepsBringFew }
{}

/// Listeners do not disturb each other. Let x be an id, and take out of a list of commands every `loopback`, `read`
/// and `lost` of other ids, and every `open` and `close` of other ids that no write of the list names. Where nothing
/// is answered 24 or 55, before and after, each command that is left has the answer that it had, and in the end the
/// table, the interfaces and x's socket with its messages are the same. From the empty world on it is enough that
/// nothing was answered so before: then the commands that are left may have those answers.
pub fn others_do_not_disturb()
    ensures same { OthersDoNotDisturb }
    ensures runs { OthersAreNotNeeded }
{}

/// While nothing closes a socket, its messages and its count of losses are a function of what it met alone: of its own
/// reads, and of the messages told that it heard. One that is opened has nothing; from then on what waits for it is a
/// sublist, in order, of what it heard since its last read, in at most 8,192 bytes. A turn that finds no memory tells
/// nobody anything.
pub fn kept_is_of_what_it_heard()
    ensures met { KeptIsOfWhatItMet }
    ensures opened { OpensWithNothing }
    ensures waits { WaitsIsOfWhatItHeard }
{}

/// A loss at one socket is seen nowhere else. Where two worlds differ only in what others than x have of the messages
/// that they heard, and in their loopback, every command but a `read`, a `lost` or a `loopback` of those others is
/// answered the same in both, and leaves two worlds that differ in no more: the same routes, the same interfaces, the
/// same messages of x.
pub fn losses_disturb_nobody()
    ensures { LossesDisturbNobody }
{}

/// The limits of a write, by number.
pub fn writes_by_number()
    ensures most { MOST_BYTES ≡ 8192 }
    ensures written { MOST_WRITTEN ≡ 8246 }
{}
