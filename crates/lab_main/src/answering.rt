//! What is answered to a line.
ghost use Rattle.std.specs.Prelude.{◌≡◌, ◌++◌, [], false, IfOk, OnOk, Some, is_err, is_none};
ghost use Rattle.event_file.specs.Grammar.{command_of};
ghost use Rattle.lab_main.specs.Telling.{Answers, Obeys, answer_to, pairs_of, plainly, told_of};
ghost use Rattle.lab_main.specs.Questions.{ends_all, question_of as question_in};
ghost use Rattle.lab_main.specs.Turns.{ComesTo, is_bad_turn, is_last_turn};
ghost use Rattle.memory.specs.Refusing.{Rises};
ghost use Rattle.plain_lines.specs.PlainLines.{plain_of};
ghost use Rattle.tree_pictures.specs.Dot.{graph_text};
ghost use Rattle.tree_pictures.specs.Svg.{svg_text};

use crate::machine::Machine;
use crate::questions::{Question, is_question, question_of};
use crate::texts::{put_help, put_no_question};
use crate::visible::put_plainly;
use event_file::is_passed;
use lab_text::Text;
use line_faults::put_help_on;
use memory::Memory;
use plain_lines::put_plain;
use route_core::World;
use std::alloc::{AllocError, Global};
use tree_pictures::{Pair, put_find, put_graph, put_svg, put_tree};
use world_words::{put_agreeing, put_interfaces, put_sockets, put_table};

/// What a line came to.
#[derive(Clone, Copy, Debug, PartialEq, Eq)]
pub(crate) enum Turn {
    /// Something was answered, or there was nothing to answer.
    On,
    /// It is neither a question nor a command.
    Bad,
    /// It is the last.
    Quit,
}

/// Puts what is answered to a line in the place of no text.
pub(crate) fn answer_line(
    alloc: Global,
    machine: &mut Machine,
    line: &[u8],
    body: &mut Text,
    memory: &mut Memory,
) -> Result<Turn, AllocError>
    requires { body.old ≡ [] }
    ensures answers { OnOk result (Answers machine.old.world line.now body.new machine.new.world machine.old.refused machine.new.refused) }
    ensures turn { IfOk result (λ turn. ComesTo line.now turn) }
    ensures counted { Rises (is_err result) memory.old memory.new }
{
    if is_question(line) {
        return answer_question(alloc, &mut machine.world, line, body, memory);
    }
    if is_passed(line) {
        return Ok(Turn::On);
    }
    answer_command(alloc, machine, line, body, memory)
}

/// Obeys a line by its plain line, which is told before where it is another.
fn answer_command(
    alloc: Global,
    machine: &mut Machine,
    line: &[u8],
    body: &mut Text,
    memory: &mut Memory,
) -> Result<Turn, AllocError>
    requires { body.old ≡ [] }
    ensures obeys { OnOk result (Obeys machine.old.world (plain_of line.now)
        (plainly line.now) body.new machine.new.world
        machine.old.refused machine.new.refused) }
    ensures turn { IfOk result (λ turn. (is_bad_turn turn ≡ is_none (command_of (plain_of line.now)))
        × (is_last_turn turn ≡ false)) }
    ensures counted { Rises (is_err result) memory.old memory.new }
{
    let mut plain = Text::new(alloc);
    tell_plain(line, &mut plain, body, memory)?;
    machine.obey(alloc, &plain, body, memory)
}

/// Makes the plain line of a line, and appends it to what is told where it is another.
fn tell_plain(
    line: &[u8],
    plain: &mut Text,
    body: &mut Text,
    memory: &mut Memory,
) -> Result<(), AllocError>
    requires { plain.old ≡ [] }
    ensures plain { OnOk result (plain.new ≡ plain_of line.now) }
    ensures told { OnOk result (body.new ≡ body.old ++ plainly line.now) }
    ensures counted { Rises (is_err result) memory.old memory.new }
{
    if !put_plain(plain, line, memory)? {
        return Ok(());
    }
    put_plainly(body, plain.as_bytes(), memory)?;
    Ok(())
}

/// Appends the answer to a question, or why the line is none.
fn answer_question(
    alloc: Global,
    world: &mut World,
    line: &[u8],
    body: &mut Text,
    memory: &mut Memory,
) -> Result<Turn, AllocError>
    ensures answer { OnOk result (body.new ≡ body.old ++ answer_to line.now world.old) }
    ensures kept { world.new ≡ world.old }
    ensures bad { IfOk result (λ turn. is_bad_turn turn ≡ is_none (question_in line.now)) }
    ensures last { IfOk result (λ turn. is_last_turn turn ≡ ends_all (question_in line.now)) }
    ensures counted { Rises (is_err result) memory.old memory.new }
{
    let Some(question) = question_of(line) else {
        put_no_question(body, line, memory)?;
        return Ok(Turn::Bad);
    };
    if question == Question::Quit {
        return Ok(Turn::Quit);
    }
    put_told(alloc, world, question, body, memory)?;
    Ok(Turn::On)
}

/// Appends what a question asks for.
fn put_told(
    alloc: Global,
    world: &mut World,
    question: Question,
    body: &mut Text,
    memory: &mut Memory,
) -> Result<(), AllocError>
    ensures put { OnOk result (body.new ≡ body.old ++ told_of question world.old) }
    ensures kept { world.new ≡ world.old }
    ensures counted { Rises (is_err result) memory.old memory.new }
{
    match question {
        Question::Table => put_table(body, &world.routes(memory)?, world, memory),
        Question::Tree => put_tree(body, &pairs(alloc, world, memory)?, memory),
        Question::Find(address) => put_find(body, address, &pairs(alloc, world, memory)?, memory),
        Question::Why(address) => {
            put_agreeing(body, address, &world.routes(memory)?, world, memory)
        }
        Question::Interfaces => put_interfaces(body, world, memory),
        Question::Sockets => put_sockets(body, world, memory),
        Question::Help => put_help(body, memory),
        Question::HelpOn(verb) => put_help_on(body, verb, memory),
        Question::Quit => Ok(()),
    }
}

/// Appends the radix tree of the routes as a graph.
pub(crate) fn put_world_graph(
    alloc: Global,
    world: &mut World,
    text: &mut Text,
    memory: &mut Memory,
) -> Result<(), AllocError>
    ensures put { OnOk result (text.new ≡ text.old ++ graph_text (pairs_of world.old)) }
    ensures kept { world.new ≡ world.old }
    ensures counted { Rises (is_err result) memory.old memory.new }
{
    put_graph(text, &pairs(alloc, world, memory)?, memory)
}

/// Appends the radix tree of the routes as a drawing.
pub(crate) fn put_world_svg(
    alloc: Global,
    world: &mut World,
    text: &mut Text,
    memory: &mut Memory,
) -> Result<(), AllocError>
    ensures put { OnOk result (text.new ≡ text.old ++ svg_text (pairs_of world.old)) }
    ensures kept { world.new ≡ world.old }
    ensures counted { Rises (is_err result) memory.old memory.new }
{
    put_svg(text, &pairs(alloc, world, memory)?, memory)
}

/// The routes by their pairs, in table order.
fn pairs(alloc: Global, world: &mut World, memory: &mut Memory) -> Result<Vec<Pair>, AllocError>
    ensures pairs { IfOk result (λ pairs. pairs.items ≡ pairs_of world.old) }
    ensures kept { world.new ≡ world.old }
    ensures counted { Rises (is_err result) memory.old memory.new }
{
    let routes = world.routes(memory)?;
    let mut pairs = Vec::new(alloc);
    for route in &routes {
        let pair = Pair {
            key: route.choice.key,
            rank: route.choice.rank,
        };
        memory.push(&mut pairs, pair)?;
    }
    Ok(pairs)
}
