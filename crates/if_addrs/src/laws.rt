//! Laws of interfaces: each function does nothing, and its contract is the law.

ghost use Rattle.if_addrs.specs.InterfaceLaws.{LastOfNetworkIsGreatest};
ghost use Rattle.if_addrs.specs.Numbered.{NumberedOnce};
ghost use Rattle.if_addrs.specs.ReferenceLaws.{AddingLasts, AttachingLasts, MarkingLasts, MostByNumber, NoneNumbered, RemovingLasts};
ghost use Rattle.if_addrs.specs.SearchLaws.{FoundStands, OfInterfaceInWords, RemovedStandsNot, WithAddrInWords, WithFarInWords, WithNetInWords};

use crate::Interfaces;

/// The last address of an address's network has the address's first bits, as many as the prefix says, and no address
/// with these bits is greater.
pub fn last_of_network_is_greatest()
    ensures { LastOfNetworkIsGreatest }
{}

/// A reference to an interface address stays one, of the same address on the same interface, whatever is attached,
/// added, marked or removed; and no address gets the number of another.
pub fn references_last()
    ensures none { NoneNumbered }
    ensures attaching { AttachingLasts }
    ensures adding { AddingLasts }
    ensures marking { MarkingLasts }
    ensures removing { RemovingLasts }
{}

/// No two addresses of these interfaces have one number.
pub fn numbers_stand_once(interfaces: &Interfaces)
    ensures { NumberedOnce interfaces.now }
{
    // A fact for the proof: what holds of interfaces is known once a field of them is looked at.
    let _ = &interfaces.interfaces;
}

/// What the searches by an IPv4 address find, in words: an address that was not removed and qualifies, and none before
/// it does; of the networks that hold the address none is smaller, and none before it as small. Where nothing is found
/// none qualifies.
pub fn searches_in_words()
    ensures own { WithAddrInWords }
    ensures far { WithFarInWords }
    ensures network { WithNetInWords }
    ensures interface { OfInterfaceInWords }
{}

/// Whatever address a search by an IPv4 address finds stands, and one that was removed doesn't: so no such search finds
/// it.
pub fn removed_is_not_found()
    ensures found { FoundStands }
    ensures removed { RemovedStandsNot }
{}

/// How many interfaces and addresses there may be, as numbers.
pub fn most_by_number()
    ensures { MostByNumber }
{}
