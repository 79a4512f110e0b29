//! The grammar of lines.
ghost use Rattle.std.specs.Prelude.{◌≡◌, map, bytes_eq, codes, length, false, Some, None};
ghost use Rattle.std.specs.Result.{MatchResult};
ghost use Rattle.event_file.specs.Words.{parted_by};
ghost use Rattle.event_file.specs.Grammar.{route_form, forms, route_forms, by_forms, command_of};

use crate::Bad;
use crate::line_buffer::LONGEST_LINE;
use crate::verbs::{
    add_address, attach, close, dump, flags, loopback, losing, lost, open, packet, read, redirect,
    remove_address, route, write,
};
use crate::words::{cut, is, put_parts};
use arrayvec::ArrayVec;
use route_core::{Command, MOST_WRITTEN, Said};

/// The most words behind a verb, but behind `route`: `addr NAME A/P to A cloning`.
const MOST_WORDS: usize = 5;

/// The most words behind `route`: `ID SEQ VERB DEST` and 15 options, of a name and a word each.
const MOST_ROUTE_WORDS: usize = 34;

/// The most words behind `route` of the lines that come most often, for which less room is made: with two options.
const FEW_ROUTE_WORDS: usize = 8;

/// What stands behind `route`, which may have as many words as any line.
#[inline(never)]
#[tactic(auto, using(crate::proofs::ManyWords::many_route_words))]
fn long_route<'a>(rest: &[u8], room: &'a mut [u8]) -> Option<Said<'a>>
    requires { length room.old ≡ MOST_WRITTEN }
    ensures { result ≡ route_form (parted_by 32 rest.now) }
{
    let mut words = ArrayVec::<&[u8], MOST_ROUTE_WORDS>::new();
    if !put_parts(b' ', rest, &mut words) {
        return None;
    }
    route(words.as_slice(), room)
}

/// What stands behind `route`.
#[inline(never)]
fn route_behind<'a>(rest: &[u8], room: &'a mut [u8]) -> Option<Said<'a>>
    requires { length room.old ≡ MOST_WRITTEN }
    ensures { result ≡ route_form (parted_by 32 rest.now) }
{
    let mut words = ArrayVec::<&[u8], FEW_ROUTE_WORDS>::new();
    if !put_parts(b' ', rest, &mut words) {
        return long_route(rest, room);
    }
    route(words.as_slice(), room)
}

/// The command on interfaces, sockets or routes that these words are behind this verb, which is not `route`. It is not
/// inlined, so that `route` lines don't pay for its locals.
#[inline(never)]
fn said_behind<'a>(verb: &[u8], words: &[&[u8]], room: &'a mut [u8]) -> Option<Said<'a>>
    requires verb { bytes_eq verb.now (codes "route") ≡ false }
    requires room { length room.old ≡ MOST_WRITTEN }
    ensures { result ≡ by_forms forms verb.now (map (λ w. w.now) words.now) }
{
    if is(verb, "if") {
        return attach(words);
    }
    if is(verb, "addr") {
        return add_address(words);
    }
    if is(verb, "unaddr") {
        return remove_address(words);
    }
    if is(verb, "open") {
        return open(words);
    }
    if is(verb, "loopback") {
        return loopback(words);
    }
    if is(verb, "close") {
        return close(words);
    }
    if is(verb, "read") {
        return read(words);
    }
    if is(verb, "lost") {
        return lost(words);
    }
    said_of_routes(verb, words, room)
}

/// The command on the routes that these words are behind this verb, which is not `route`. It is inlined, since what is
/// said would else be moved once more.
#[inline(always)]
fn said_of_routes<'a>(verb: &[u8], words: &[&[u8]], room: &'a mut [u8]) -> Option<Said<'a>>
    requires verb { bytes_eq verb.now (codes "route") ≡ false }
    requires room { length room.old ≡ MOST_WRITTEN }
    ensures { result ≡ by_forms route_forms verb.now (map (λ w. w.now) words.now) }
{
    if is(verb, "write") {
        return write(words, room);
    }
    if is(verb, "packet") {
        return packet(words);
    }
    if is(verb, "redirect") {
        return redirect(words);
    }
    if is(verb, "losing") {
        return losing(words);
    }
    if is(verb, "dump") {
        return dump(words);
    }
    if is(verb, "flags") {
        return flags(words);
    }
    None
}

/// What a line says, without its newline, as `read_line` reads it; the bytes of a write are put into `room`, which has
/// room for `MOST_WRITTEN` bytes, and what it held is lost. `None` where the grammar has no such line.
///
/// What is said is copied by each function that hands it on, so there are few of them on the way to it.
#[tactic(auto, using(crate::proofs::ManyWords::verb_alone, crate::proofs::ManyWords::many_words))]
pub fn read_said<'a>(line: &[u8], room: &'a mut [u8]) -> Option<Said<'a>>
    requires { length room.old ≡ MOST_WRITTEN }
    ensures { result ≡ command_of line.now }
{
    if line.len() > LONGEST_LINE {
        return None;
    }
    let Some((verb, rest)) = cut(b' ', line) else {
        return None;
    };
    if is(verb, "route") {
        return route_behind(rest, room);
    }
    let mut words = ArrayVec::<&[u8], MOST_WORDS>::new();
    if !put_parts(b' ', rest, &mut words) {
        return None;
    }
    said_behind(verb, words.as_slice(), room)
}

/// The command that a line says, without its newline. `Bad` where the grammar has no such line, among them any of more
/// than 16,500 bytes.
pub fn read_line(line: &[u8]) -> Result<Command, Bad>
    ensures { MatchResult result (λ c. command_of line.now ≡ Some c) (λ _. command_of line.now ≡ None) }
{
    let mut room = [0; MOST_WRITTEN];
    let said = read_said(line, &mut room).ok_or(Bad)?;
    Ok(said.command())
}
