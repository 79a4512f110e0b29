//! Laws of sockets, and of the bytes of their messages: each function does nothing, and its contract is the law.

ghost use Rattle.listeners.specs.QueueLaws.{JoinedIsCut, JoinedAreMessages};
ghost use Rattle.listeners.specs.Kept.{DeliveriesAreEvents, EventsInParts, KeptAreHeard, KeptIsBounded, KeptOrCounted, LoopbackIsNoEvent, OpenedKeepsNothing, ReadingIsAnEvent};
ghost use Rattle.listeners.specs.SocketLaws.{ClosedIsGone, ClosingDisturbsNoOther, ClosingKeepsBound, CountInWords, DeliveringChangesKeptAlone, DeliveringKeepsBound, DeliversWhateverLoopback, DeliversWithoutClosed, HeardIsAppendedOrLost, HearsInWords, LoopbackChangesItAlone, LoopbackDisturbsNoOther, LoopbackIsSet, LoopbackKeepsBound, LoopbackLeavesOthers, LoopbackOffSilencesOwn, LossIsSeenNowhereElse, MostByNumber, NoneAreBounded, OpeningKeepsBound, ReadingChangesMessagesAlone, ReadingDisturbsNoOther, ReadingKeepsBound, ReadingKeepsCount, ReopenedIsEmpty, UnheardChangesNothing};

/// A socket that reads its messages leaves every other as it was, and of itself all but its messages; its count of
/// losses stays too.
pub fn reading_disturbs_no_other()
    ensures others { ReadingDisturbsNoOther }
    ensures alone { ReadingChangesMessagesAlone }
    ensures count { ReadingKeepsCount }
{}

/// A socket that is closed is open no more, and leaves every other as it was; one that is opened with its id again has
/// no message, and has lost none.
pub fn closing_disturbs_no_other()
    ensures gone { ClosedIsGone }
    ensures others { ClosingDisturbsNoOther }
    ensures empty { ReopenedIsEmpty }
{}

/// Turning loopback of a socket on or off leaves every other as it was, and of itself all but its loopback.
pub fn loopback_disturbs_no_other()
    ensures set { LoopbackIsSet }
    ensures others { LoopbackDisturbsNoOther }
    ensures alone { LoopbackChangesItAlone }
{}

/// A socket hears all of its family, or all; but with loopback off not the replies to its own writes, and all else as
/// before.
pub fn loopback_silences_own_replies_alone()
    ensures family { HearsInWords }
    ensures own { LoopbackOffSilencesOwn }
    ensures others { LoopbackLeavesOthers }
{}

/// A delivery reaches the other sockets alike, whether one is closed, or has loopback on or off.
pub fn delivering_reaches_the_others()
    ensures closed { DeliversWithoutClosed }
    ensures loopback { DeliversWhateverLoopback }
{}

/// A delivery changes nothing of any socket but its messages and its count: a message that it hears is added whole at
/// their end where it fits, and else counted as lost.
pub fn delivering_appends_or_counts()
    ensures alone { DeliveringChangesKeptAlone }
    ensures unheard { UnheardChangesNothing }
    ensures heard { HeardIsAppendedOrLost }
    ensures count { CountInWords }
{}

/// A message that is lost at one socket is seen at no other: what a delivery makes of a socket depends on it alone.
pub fn loss_is_seen_nowhere_else()
    ensures { LossIsSeenNowhereElse }
{}

/// Whatever is done, the messages that wait for a socket have at most 8,192 bytes.
pub fn queues_stay_bounded()
    ensures none { NoneAreBounded }
    ensures opening { OpeningKeepsBound }
    ensures closing { ClosingKeepsBound }
    ensures loopback { LoopbackKeepsBound }
    ensures reading { ReadingKeepsBound }
    ensures delivering { DeliveringKeepsBound }
{}

/// A socket's messages and its count are a function of the messages that it heard and of its own reads.
pub fn kept_by_what_it_heard()
    ensures opened { OpenedKeepsNothing }
    ensures delivered { DeliveriesAreEvents }
    ensures read { ReadingIsAnEvent }
    ensures loopback { LoopbackIsNoEvent }
    ensures parts { EventsInParts }
{}

/// What waits for a socket is a sublist, in order, of what it heard since its last read, each message whole, in at most
/// 8,192 bytes; and each message that it heard is kept or counted.
pub fn kept_is_of_what_it_heard()
    ensures heard { KeptAreHeard }
    ensures bounded { KeptIsBounded }
    ensures counted { KeptOrCounted }
{}

/// Messages whose bytes are joined are cut into the same messages again, and the bytes are whole messages.
pub fn joined_is_cut()
    ensures same { JoinedIsCut }
    ensures whole { JoinedAreMessages }
{}

/// How many sockets may be open, and how many bytes may wait for one, as numbers.
pub fn most_by_number()
    ensures { MostByNumber }
{}
