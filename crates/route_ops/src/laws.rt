//! Laws of requests and look-ups: each function does nothing, and its contract is the law.

ghost use Rattle.route_ops.specs.LookLaws.{AnswerIsThere, CloneIsAdded, CloneIsThere, LinkHasNoRoute, NoneAgrees, RouteIsKnown};
ghost use Rattle.route_ops.specs.Bringing.{AddingBringsTwo, ChangingBringsOne, DeepLookBringsTwo, LockingBringsNone, LookBringsOne, LosingBringsNone, NoneTakenOut, NoneWrittenAnew, OneMoreAtMost, RedirectBringsTwo, SettlingBringsOne, TableBringsNone};
ghost use Rattle.route_ops.specs.LossLaws.{RefusedLosingKeeps};
ghost use Rattle.route_ops.specs.MemoryLaws.{AddingHasMemory, ChangingHasMemory, LockingHasMemory, LosingHasMemory, RedirectHasMemory, ShowingHasMemory};
ghost use Rattle.route_ops.specs.RedirectLaws.{RefusedRedirectKeeps};
ghost use Rattle.route_ops.specs.Tables.{AddingStays, AddressRouteIsOf, ChangingStays, KeptStays, LockingStays, LookStays, LosingStays, RedirectStays, WithStays, WithoutStays};

/// A look-up by cases: a link-layer address, and an address without a route, is missed; a route that doesn't clone is
/// the answer; where its clone's pair is there, that is missed and the route is the answer; and otherwise the clone
/// is added, and settled where the look-up is deep.
pub fn look_up_by_cases()
    ensures link { LinkHasNoRoute }
    ensures none { NoneAgrees }
    ensures known { RouteIsKnown }
    ensures there { CloneIsThere }
    ensures cloned { CloneIsAdded }
{}

/// The route that a look-up answers stands in the table that it leaves.
pub fn answer_is_there()
    ensures { AnswerIsThere }
{}

/// No look-up, request or redirect brings more than two routes that were not there, nor more than two messages, and the
/// loss of a route brings none and at most one message.
pub fn few_are_brought()
    ensures look_up { LookBringsOne }
    ensures deep_look_up { DeepLookBringsTwo }
    ensures settle_gateway { SettlingBringsOne }
    ensures request_add { AddingBringsTwo }
    ensures request_change { ChangingBringsOne }
    ensures request_lock { LockingBringsNone }
    ensures redirect { RedirectBringsTwo }
    ensures losing { LosingBringsNone }
{}

/// How many routes one change of a table brings that were not there.
pub fn changes_bring()
    ensures itself { TableBringsNone }
    ensures with { OneMoreAtMost }
    ensures anew { NoneWrittenAnew }
    ensures without { NoneTakenOut }
{}

/// A redirect that is refused leaves the table, and makes one message: that it came, and why it was refused.
pub fn refused_redirect_keeps()
    ensures { RefusedRedirectKeeps }
{}

/// Why a request, a redirect or the loss of a route is refused is never want of memory: that is found by `prepare` and
/// `prepare_rooms` alone.
pub fn nothing_else_wants_memory()
    ensures request_add { AddingHasMemory }
    ensures request_change { ChangingHasMemory }
    ensures request_lock { LockingHasMemory }
    ensures request_get { ShowingHasMemory }
    ensures redirect { RedirectHasMemory }
    ensures losing { LosingHasMemory }
{}

/// Where no route seems dead, since there is none, nothing is changed and nothing is told.
pub fn refused_losing_keeps()
    ensures { RefusedLosingKeeps }
{}

/// A table whose routes lead out of some interfaces, with gateways and masks in their ranges, is such a table also with
/// another such route, without a route, and where the interfaces keep their addresses.
pub fn tables_stay()
    ensures with { WithStays }
    ensures without { WithoutStays }
    ensures kept { KeptStays }
    ensures address { AddressRouteIsOf }
{}

/// And a look-up, a request, a redirect and the loss of a route leave such a table.
pub fn calls_keep_tables()
    ensures look_up { LookStays }
    ensures request_add { AddingStays }
    ensures request_change { ChangingStays }
    ensures request_lock { LockingStays }
    ensures redirect { RedirectStays }
    ensures losing { LosingStays }
{}
