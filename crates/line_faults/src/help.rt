//! Help on a verb: how a line with it is written, word by word.
ghost use Rattle.std.specs.Prelude.{◌≡◌, ◌++◌, OnOk, is_err};
ghost use Rattle.line_faults.specs.Help.{all_option_lines, behind_lines, help_on, option_line, option_lines, options_help, word_line, word_lines};
ghost use Rattle.memory.specs.Refusing.{Rises};

use crate::options::OPTIONS;
use crate::{RouteOption, Verb, Wanted, WordKind};
use lab_text::Text;
use memory::Memory;
use std::alloc::AllocError;

/// Appends how a line with this verb is written and what that does, what each of its words is, and what may stand
/// behind them, a line each. `Err`: there is no memory, which is counted.
pub fn put_help_on(text: &mut Text, verb: Verb, memory: &mut Memory) -> Result<(), AllocError>
    ensures put { OnOk result (text.new ≡ text.old ++ help_on verb) }
    ensures counted { Rises (is_err result) memory.old memory.new }
{
    text.put(verb.usage().as_bytes(), memory)?;
    text.put(b"\n", memory)?;
    put_word_lines(text, verb.words(), memory)?;
    put_behind_lines(text, verb, memory)
}

/// Appends the words that have to stand from word 2 on.
fn put_word_lines(
    text: &mut Text,
    kinds: &[WordKind],
    memory: &mut Memory,
) -> Result<(), AllocError>
    ensures put { OnOk result (text.new ≡ text.old ++ word_lines 2 kinds.now) }
    ensures counted { Rises (is_err result) memory.old memory.new }
{
    let mut left = kinds;
    let mut place = 2;
    'kinds: while let [kind, rest @ ..] = left {
        put_word_line(text, place, *kind, memory)?;
        place += 1;
        left = rest;
    }
    Ok(())
}

/// Appends the word that has to stand at a place.
fn put_word_line(
    text: &mut Text,
    place: u64,
    kind: WordKind,
    memory: &mut Memory,
) -> Result<(), AllocError>
    ensures put { OnOk result (text.new ≡ text.old ++ word_line place kind) }
    ensures counted { Rises (is_err result) memory.old memory.new }
{
    text.put(b"  word ", memory)?;
    text.put_number(place, memory)?;
    text.put(b": ", memory)?;
    text.put(kind.text().as_bytes(), memory)?;
    text.put(b"\n", memory)
}

/// Appends what may stand behind the words that have to.
fn put_behind_lines(text: &mut Text, verb: Verb, memory: &mut Memory) -> Result<(), AllocError>
    ensures put { OnOk result (text.new ≡ text.old ++ behind_lines verb) }
    ensures counted { Rises (is_err result) memory.old memory.new }
{
    match verb {
        Verb::Addr => {
            text.put(b"  then ", memory)?;
            text.put(Wanted::ToOrCloning.text().as_bytes(), memory)?;
            text.put(b"\n", memory)
        }
        Verb::Route => put_options_help(text, memory),
        _ => Ok(()),
    }
}

/// Appends which options there are.
fn put_options_help(text: &mut Text, memory: &mut Memory) -> Result<(), AllocError>
    ensures put { OnOk result (text.new ≡ text.old ++ options_help) }
    ensures counted { Rises (is_err result) memory.old memory.new }
{
    text.put(b"  then options, in this order:\n", memory)?;
    put_all_options(text, memory)
}

/// Appends all options, each with what the word behind it is.
#[tactic(auto, unfolding(crate::specs::Help::all_option_lines))]
fn put_all_options(text: &mut Text, memory: &mut Memory) -> Result<(), AllocError>
    ensures put { OnOk result (text.new ≡ text.old ++ all_option_lines) }
    ensures counted { Rises (is_err result) memory.old memory.new }
{
    put_option_lines(text, &OPTIONS, memory)
}

/// Appends options, each with what the word behind it is.
fn put_option_lines(
    text: &mut Text,
    options: &[RouteOption],
    memory: &mut Memory,
) -> Result<(), AllocError>
    ensures put { OnOk result (text.new ≡ text.old ++ option_lines options.now) }
    ensures counted { Rises (is_err result) memory.old memory.new }
{
    let mut left = options;
    'options: while let [option, rest @ ..] = left {
        put_option_line(text, *option, memory)?;
        left = rest;
    }
    Ok(())
}

/// Appends an option, and what the word behind it is.
fn put_option_line(
    text: &mut Text,
    option: RouteOption,
    memory: &mut Memory,
) -> Result<(), AllocError>
    ensures put { OnOk result (text.new ≡ text.old ++ option_line option) }
    ensures counted { Rises (is_err result) memory.old memory.new }
{
    text.put(b"  ", memory)?;
    text.put(option.text().as_bytes(), memory)?;
    text.put(b" and ", memory)?;
    text.put(option.kind().text().as_bytes(), memory)?;
    text.put(b"\n", memory)
}
