//! Which word of a line is wrong.
ghost use Rattle.std.specs.Prelude.{◌≡◌, ◌≤◌, ◌+◌, ◌*◌, length, drop, option_map};
ghost use Rattle.std.specs.Option.{IfNone};
ghost use Rattle.line_faults.specs.Faults.{fault_among as first_among, fault_behind as behind_verb, fault_in, fault_of_address_options as of_address_options, fault_of_cloning as of_cloning, fault_of_more as of_more, fault_of_options as of_options, fault_of_verb as of_verb, what_may_come};
ghost use Rattle.line_faults.specs.Words.{words_from};

use crate::options::OPTIONS;
use crate::probes::{LONGEST_LINE, is_of};
use crate::verbs::{Verb, verb_of};
use crate::words::{Words, is};
use crate::{RouteOption, Wanted, WordKind};
use route_core::MOST_WRITTEN;

/// Which word of a line is wrong.
#[derive(Clone, Copy, Debug, PartialEq, Eq)]
pub struct LineFault {
    /// Its place among the words, from 0 on: one past the last where a word is missing, and 0 where the line is too
    /// long.
    pub place: usize,
    /// What is wanted there.
    pub wanted: Wanted,
}

/// The most words that are looked at.
const MOST_PLACES: usize = 100;

/// The first of the words that isn't of its kind, or is missing; else all these are passed. The first has this place.
fn fault_among(
    place: usize,
    kinds: &[WordKind],
    words: &mut Words,
    room: &mut [u8],
) -> Option<LineFault>
    requires place { place + length kinds.now ≤ MOST_PLACES }
    requires room { length room.old ≡ MOST_WRITTEN }
    ensures fault { result ≡ first_among place kinds.now words.old }
    ensures rest { IfNone result (words.new ≡ drop (length kinds.now) words.old) }
{
    let mut at = place;
    let mut left = kinds;
    'kinds: while let [kind, rest @ ..] = left {
        let fault = LineFault {
            place: at,
            wanted: Wanted::Word(*kind),
        };
        let Some(word) = words.next() else {
            return Some(fault);
        };
        if !is_of(*kind, word, room) {
            return Some(fault);
        }
        at += 1;
        left = rest;
    }
    None
}

/// No word may be left. The first has this place.
fn fault_of_more(place: usize, words: &mut Words) -> Option<LineFault>
    ensures { result ≡ of_more place words.old }
{
    let _ = words.next()?;
    Some(LineFault {
        place,
        wanted: Wanted::NothingMore,
    })
}

/// Of the words from `next` on, which has this place: they are `cloning`, or none.
fn fault_of_cloning(
    wanted: Wanted,
    place: usize,
    next: Option<&[u8]>,
    words: &mut Words,
) -> Option<LineFault>
    requires { place ≤ MOST_PLACES }
    ensures { result ≡ of_cloning wanted place (words_from (option_map (λ w. w.now) next.entry) words.old) }
{
    let word = next?;
    if !is(word, "cloning") {
        return Some(LineFault { place, wanted });
    }
    fault_of_more(place + 1, words)
}

/// Of the words behind an interface's address: `to A` and `cloning`, each where it is written.
fn fault_of_address_options(place: usize, words: &mut Words, room: &mut [u8]) -> Option<LineFault>
    requires place { place + 2 ≤ MOST_PLACES }
    requires room { length room.old ≡ MOST_WRITTEN }
    ensures { result ≡ of_address_options place words.old }
{
    let word = words.next()?;
    if !is(word, "to") {
        return fault_of_cloning(Wanted::ToOrCloning, place, Some(word), words);
    }
    if let Some(fault) = fault_among(place + 1, &[WordKind::Address], words, room) {
        return Some(fault);
    }
    fault_of_cloning(Wanted::Cloning, place + 2, words.next(), words)
}

/// What may come where these options are left.
fn may_come(options: &[RouteOption]) -> Wanted
    ensures { result ≡ what_may_come options.now }
{
    match options {
        [] => Wanted::NothingMore,
        [option, ..] => Wanted::Options(*option),
    }
}

/// Of the options of a `route` line from this place on, each at most once and in their order, where of those that are
/// left this may come.
fn fault_of_options(
    wanted: Wanted,
    place: usize,
    options: &[RouteOption],
    words: &mut Words,
    room: &mut [u8],
) -> Option<LineFault>
    requires place { place + 2 * length options.now ≤ MOST_PLACES }
    requires room { length room.old ≡ MOST_WRITTEN }
    ensures { result ≡ of_options wanted place options.now words.old }
{
    let mut may = wanted;
    let mut at = place;
    let mut left = options;
    let mut next = words.next();
    'options: while let [option, rest @ ..] = left {
        let word = next?;
        left = rest;
        if !is(word, option.text()) {
            continue;
        }
        if let Some(fault) = fault_among(at + 1, &[option.kind()], words, room) {
            return Some(fault);
        }
        at += 2;
        may = may_come(rest);
        next = words.next();
    }
    let _ = next?;
    Some(LineFault {
        place: at,
        wanted: may,
    })
}

/// Of the words from this place on, which stand behind those that the verb has to have.
fn fault_behind(verb: Verb, place: usize, words: &mut Words, room: &mut [u8]) -> Option<LineFault>
    requires place { place ≤ 10 }
    requires room { length room.old ≡ MOST_WRITTEN }
    ensures { result ≡ behind_verb verb place words.old }
{
    match verb {
        Verb::Addr => fault_of_address_options(place, words, room),
        Verb::Route => {
            let first = Wanted::Options(RouteOption::Via);
            fault_of_options(first, place, &OPTIONS, words, room)
        }
        _ => fault_of_more(place, words),
    }
}

/// Of the words behind a verb.
fn fault_of_verb(verb: Verb, words: &mut Words) -> Option<LineFault>
    ensures { result ≡ of_verb verb words.old }
{
    let mut room = [0; MOST_WRITTEN];
    let kinds = verb.words();
    if let Some(fault) = fault_among(1, kinds, words, &mut room) {
        return Some(fault);
    }
    fault_behind(verb, 1 + kinds.len(), words, &mut room)
}

/// Which word of a line, without its newline, is wrong: the first that no line of the grammar has there behind the
/// words before it. `None` just where the grammar has the line.
pub fn fault_of(line: &[u8]) -> Option<LineFault>
    ensures { result ≡ fault_in line.now }
{
    if line.len() > LONGEST_LINE {
        return Some(LineFault {
            place: 0,
            wanted: Wanted::ShorterLine,
        });
    }
    let unknown = Some(LineFault {
        place: 0,
        wanted: Wanted::Verb,
    });
    let mut words = Words::of(line);
    let Some(word) = words.next() else {
        return unknown;
    };
    match verb_of(word) {
        Some(verb) => fault_of_verb(verb, &mut words),
        None => unknown,
    }
}
