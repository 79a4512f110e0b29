//! Laws of dumps: each function does nothing, and its contract is the law.

ghost use Rattle.table_dump.specs.DumpLaws.{AllAreGiven, GivenFits, GivenIsFront, NextDoesNotFit, UnrefusedAreAll};

/// What a dump gives is the longest front of all messages that fits: it is a front, it fits, and the next message
/// would not have fitted.
pub fn given_is_longest_front()
    ensures front { GivenIsFront }
    ensures fits { GivenFits }
    ensures longest { NextDoesNotFit }
{}

/// A dump gives all messages, without an errno, exactly where they fit.
pub fn all_are_given()
    ensures given { AllAreGiven }
    ensures unrefused { UnrefusedAreAll }
{}
