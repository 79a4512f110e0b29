//! The laws of calls and of their numbers: each function does nothing, and its contract is the law.

ghost use Rattle.std.specs.Prelude.{◌≡◌};
ghost use Rattle.hoiskend.specs.Runs.{CallsAreARun};

use crate::codes::{ABSENT, BAD, KIND, LENGTH, OVERRUN, VERSION, WIDE};
use crate::parts::{BYTES_FORM, INET_FORM, LINK_FORM, MASK_FORM};
use crate::request::NO_MASK;
use crate::route::LINK_BYTES;
use crate::there::{LINK_ADDRESS_BYTES, NAME_BYTES};

/// Any list of calls on a world that was just opened is a run of the machine from the empty world: the commands that
/// the calls give it, in order, each answered as its call was.
pub fn calls_are_a_run()
    ensures { CallsAreARun }
{}

/// The codes that are no errno, by number.
pub fn codes_by_number()
    ensures bad { BAD ≡ 256 }
    ensures kind { KIND ≡ 257 }
    ensures length { LENGTH ≡ 258 }
    ensures version { VERSION ≡ 259 }
    ensures overrun { OVERRUN ≡ 260 }
    ensures wide { WIDE ≡ 261 }
    ensures absent { ABSENT ≡ 262 }
{}

/// The forms of an address, by number.
pub fn forms_by_number()
    ensures bytes { BYTES_FORM ≡ 0 }
    ensures inet { INET_FORM ≡ 1 }
    ensures mask { MASK_FORM ≡ 2 }
    ensures link { LINK_FORM ≡ 3 }
{}

/// The number of bits that says that no mask is named, and how many bytes the fields have.
pub fn fields_by_number()
    ensures no_mask { NO_MASK ≡ 33 }
    ensures link { LINK_BYTES ≡ 32 }
    ensures name { NAME_BYTES ≡ 9 }
    ensures link_address { LINK_ADDRESS_BYTES ≡ 8 }
{}
