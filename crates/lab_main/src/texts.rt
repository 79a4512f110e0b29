//! The texts that stand about what is told.
ghost use Rattle.std.specs.Prelude.{◌≡◌, ◌≢◌, ◌≤◌, ◌⊎◌, ◌++◌, ◌∷◌, [], OnOk, false, is_err, length};
ghost use Rattle.event_file.specs.Lines.{has_newline};
ghost use Rattle.event_file.specs.Words.{parted_by};
ghost use Rattle.lab_main.specs.Help.{help, no_question, second_wrong};
ghost use Rattle.lab_main.specs.Telling.{fault_words, shown, word_shown, wrong_word};
ghost use Rattle.lab_main.specs.Texts.{ending, indented, lines_word as lines_word_of, numbered, wrong_text};
ghost use Rattle.line_faults.specs.Faults.{fault_in};
ghost use Rattle.line_faults.specs.Words.{word_of};
ghost use Rattle.memory.specs.Refusing.{Rises};

use crate::questions::{address_asked, word_asked};
use crate::shows::Shows;
use crate::visible::{put_echo, put_quoted_wrong};
use lab_text::Text;
use line_faults::{LineFault, Wanted, WordKind, fault_of, put_usages, word_at};
use line_reader::newline_in;
use memory::Memory;
use std::alloc::AllocError;

/// Appends what is shown of a line: itself behind its number, and what is told of it.
pub(crate) fn put_shown(
    shows: Shows,
    number: u64,
    line: &[u8],
    body: &[u8],
    text: &mut Text,
    memory: &mut Memory,
) -> Result<(), AllocError>
    ensures put { OnOk result (text.new ≡ text.old ++ shown shows number line.now body.now) }
    ensures counted { Rises (is_err result) memory.old memory.new }
{
    if shows.echo {
        put_echo(text, number, line, memory)?;
    }
    if !shows.done && body == b"ok\n".as_slice() {
        return Ok(());
    }
    put_indented(text, body, memory)
}

/// Appends each line of a text behind four spaces.
fn put_indented(text: &mut Text, body: &[u8], memory: &mut Memory) -> Result<(), AllocError>
    ensures put { OnOk result (text.new ≡ text.old ++ indented body.now) }
    ensures counted { Rises (is_err result) memory.old memory.new }
{
    let mut rest = body;
    while !rest.is_empty() {
        let (line, behind) = cut_line(rest);
        text.put(b"    ", memory)?;
        text.put(line, memory)?;
        text.put(b"\n", memory)?;
        rest = behind;
    }
    Ok(())
}

/// The first line of a text that isn't empty, and what stands behind its newline, which the last one may lack.
fn cut_line(text: &[u8]) -> (&[u8], &[u8])
    requires { text.now ≢ [] }
    ensures whole { has_newline result.0.now ≡ false }
    ensures parts { (text.now ≡ result.0.now ++ 10 ∷ result.1.now) ⊎ ((text.now ≡ result.0.now) × (result.1.now ≡ [])) }
{
    match newline_in(text) {
        Some(at) => (&text[..at], &text[at + 1..]),
        None => (text, &text[text.len()..]),
    }
}

/// Appends which lines were bad, where some were.
#[tactic(auto, using(crate::proofs::Indenting::five))]
pub(crate) fn put_ending(
    text: &mut Text,
    bad: &[u64],
    memory: &mut Memory,
) -> Result<(), AllocError>
    ensures put { OnOk result (text.new ≡ text.old ++ ending bad.now) }
    ensures counted { Rises (is_err result) memory.old memory.new }
{
    let [first, others @ ..] = bad else {
        return Ok(());
    };
    text.put_number(bad.len() as u64, memory)?;
    text.put(lines_word(others).as_bytes(), memory)?;
    text.put_number(*first, memory)?;
    put_numbered(text, others, memory)?;
    text.put(b"\n", memory)?;
    Ok(())
}

/// What stands between how many lines were bad and which: one where there are no others.
fn lines_word(others: &[u64]) -> &'static str
    ensures { result.now ≡ lines_word_of others.now }
{
    if others.is_empty() {
        " bad line: "
    } else {
        " bad lines: "
    }
}

/// Appends numbers, each behind a comma.
fn put_numbered(text: &mut Text, numbers: &[u64], memory: &mut Memory) -> Result<(), AllocError>
    ensures put { OnOk result (text.new ≡ text.old ++ numbered numbers.now) }
    ensures counted { Rises (is_err result) memory.old memory.new }
{
    for number in numbers {
        text.put(b", ", memory)?;
        text.put_number(*number, memory)?;
    }
    Ok(())
}

/// Appends why a line is no command.
pub(crate) fn put_fault(text: &mut Text, line: &[u8], memory: &mut Memory) -> Result<(), AllocError>
    ensures put { OnOk result (text.new ≡ text.old ++ fault_words line.now (fault_in line.now)) }
    ensures counted { Rises (is_err result) memory.old memory.new }
{
    let Some(fault) = fault_of(line) else {
        return text.put(b"bad\n", memory);
    };
    if fault.wanted == Wanted::ShorterLine {
        return text.put(b"bad: wanted: a line of at most 16500 bytes\n", memory);
    }
    put_wrong_word(text, line, &fault, memory)
}

/// Appends which word of a line is wrong, and what is wanted there.
#[tactic(auto, using(crate::proofs::Indenting::six))]
fn put_wrong_word(
    text: &mut Text,
    line: &[u8],
    fault: &LineFault,
    memory: &mut Memory,
) -> Result<(), AllocError>
    ensures put { OnOk result (text.new ≡ text.old ++ wrong_word line.now fault.now) }
    ensures counted { Rises (is_err result) memory.old memory.new }
{
    text.put(b"bad: word ", memory)?;
    text.put_number((fault.place as u64).saturating_add(1), memory)?;
    put_word(text, line, fault.place, memory)?;
    text.put(b"; wanted: ", memory)?;
    text.put(fault.wanted.text().as_bytes(), memory)?;
    text.put(b"\n", memory)?;
    Ok(())
}

/// Appends that the word of a line with this number, from 0 on, is wrong, or that there is none.
fn put_word(
    text: &mut Text,
    line: &[u8],
    place: usize,
    memory: &mut Memory,
) -> Result<(), AllocError>
    ensures put { OnOk result (text.new ≡ text.old ++ word_shown (word_of (parted_by 32 line.now) place)) }
    ensures counted { Rises (is_err result) memory.old memory.new }
{
    let Some(word) = word_at(line, place) else {
        return text.put(b" is missing", memory);
    };
    put_wrong(text, word, memory)
}

/// Appends that a word is wrong, or that it is empty.
fn put_wrong(text: &mut Text, word: &[u8], memory: &mut Memory) -> Result<(), AllocError>
    ensures put { OnOk result (text.new ≡ text.old ++ wrong_text word.now) }
    ensures counted { Rises (is_err result) memory.old memory.new }
{
    if word.is_empty() {
        return text.put(
            b" is empty, since words are parted by single spaces",
            memory,
        );
    }
    put_quoted_wrong(text, word, memory)
}

/// Appends why a line behind `?` is no question: its second word, or else which questions there are.
pub(crate) fn put_no_question(
    text: &mut Text,
    line: &[u8],
    memory: &mut Memory,
) -> Result<(), AllocError>
    ensures put { OnOk result (text.new ≡ text.old ++ no_question line.now) }
    ensures counted { Rises (is_err result) memory.old memory.new }
{
    if let Some(word) = word_asked(line) {
        return put_second_wrong(text, word, Wanted::Verb, memory);
    }
    if let Some(word) = address_asked(line) {
        return put_second_wrong(text, word, Wanted::Word(WordKind::Address), memory);
    }
    text.put(
        b"bad: wanted: one of ?table, ?tree, ?find A, ?why A, ?interfaces, ?sockets, ?help, ?help VERB, ?quit\n",
        memory,
    )
}

/// Appends that the second word of a question is wrong, and what is wanted there.
fn put_second_wrong(
    text: &mut Text,
    word: &[u8],
    wanted: Wanted,
    memory: &mut Memory,
) -> Result<(), AllocError>
    ensures put { OnOk result (text.new ≡ text.old ++ second_wrong word.now wanted) }
    ensures counted { Rises (is_err result) memory.old memory.new }
{
    text.put(b"bad: word 2", memory)?;
    put_wrong(text, word, memory)?;
    text.put(b"; wanted: ", memory)?;
    text.put(wanted.text().as_bytes(), memory)?;
    text.put(b"\n", memory)?;
    Ok(())
}

/// Appends how each line and each question is written.
pub(crate) fn put_help(text: &mut Text, memory: &mut Memory) -> Result<(), AllocError>
    ensures put { OnOk result (text.new ≡ text.old ++ help) }
    ensures counted { Rises (is_err result) memory.old memory.new }
{
    put_usages(text, memory)?;
    text.put(
        b"\
?table       the routes, in the way of netstat -rn
?tree        the radix tree of the routes
?find A      how the best route of an address is found
?why A       which routes an address agrees with
?interfaces  the interfaces, with their addresses
?sockets     the open routing sockets
?help        this
?help VERB   how a line with this verb is written, word by word
?quit        the end
",
        memory,
    )
}
