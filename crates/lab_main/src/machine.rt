//! The machine to which plain lines are told.
ghost use Rattle.std.specs.Prelude.{◌≡◌, IfOk, OnOk, false, is_err, is_none, length};
ghost use Rattle.event_file.specs.Grammar.{command_of};
ghost use Rattle.lab_main.specs.Telling.{Obeys};
ghost use Rattle.lab_main.specs.Turns.{is_bad_turn, is_last_turn};
ghost use Rattle.memory.specs.Refusing.{Rises};
ghost use Rattle.route_core.specs.World.{empty_world};

use crate::answering::Turn;
use crate::texts::put_fault;
use event_file::read_said;
use lab_text::Text;
use memory::Memory;
use route_core::{MOST_WRITTEN, Room, World};
use std::alloc::{AllocError, Global};
use std::marker::Model;
use world_words::put_answer;

/// A world, and how often it was refused memory: what is answered 55 is counted here, and never as a want of memory for
/// what is told of it. A contract sees these two.
#[derive(Drop)]
pub(crate) struct Machine {
    pub(crate) world: World,
    refusals: Memory,
    /// For the bytes that are written to a socket.
    written: Vec<u8>,
    /// For the messages that are read from one.
    room: Room,
}

impl Model for Machine {
    ghost use Rattle.std.specs.Prelude.{◌≡◌, length};
    ghost use Rattle.route_core.specs.declared.written.TheConstants.{MOST_WRITTEN};
    ghost use Rattle.lab_main.specs.Telling.{Point};

    ghost Value = { Point };

    ghost view = { λ m. record { world = m.world; refused = m.refusals } };

    ghost invariant = { λ m. length m.written.items ≡ MOST_WRITTEN };
}

impl Machine {
    /// An empty world, whose refusals are counted on from there.
    pub(crate) fn new(
        alloc: Global,
        refusals: Memory,
        memory: &mut Memory,
    ) -> Result<Machine, AllocError>
        ensures empty { IfOk result (λ machine. machine ≡ record { world = empty_world; refused = refusals }) }
        ensures counted { Rises (is_err result) memory.old memory.new }
    {
        let world = World::new_counted(alloc, memory)?;
        let written = memory.zeros(alloc, MOST_WRITTEN)?;
        let room = Room::new(alloc, memory)?;
        Ok(Machine {
            world,
            refusals,
            written,
            room,
        })
    }

    /// Obeys a plain line and appends what that is answered, or which of its words is wrong.
    pub(crate) fn obey(
        &mut self,
        alloc: Global,
        line: &Text,
        body: &mut Text,
        memory: &mut Memory,
    ) -> Result<Turn, AllocError>
        ensures obeys { OnOk result (Obeys self.old.world line.now body.old body.new self.new.world self.old.refused self.new.refused) }
        ensures turn { IfOk result (λ turn. (is_bad_turn turn ≡ is_none (command_of line.now))
            × (is_last_turn turn ≡ false)) }
        ensures counted { Rises (is_err result) memory.old memory.new }
    {
        obey(
            alloc,
            &mut self.world,
            &mut self.refusals,
            &mut self.written,
            &mut self.room,
            line,
            body,
            memory,
        )
    }
}

/// So does a world whose refusals are counted, with these rooms.
fn obey(
    alloc: Global,
    world: &mut World,
    refusals: &mut Memory,
    written: &mut [u8],
    room: &mut Room,
    line: &Text,
    body: &mut Text,
    memory: &mut Memory,
) -> Result<Turn, AllocError>
    requires { length written.old ≡ MOST_WRITTEN }
    ensures obeys { OnOk result (Obeys world.old line.now body.old body.new world.new refusals.old refusals.new) }
    ensures turn { IfOk result (λ turn. (is_bad_turn turn ≡ is_none (command_of line.now))
        × (is_last_turn turn ≡ false)) }
    ensures counted { Rises (is_err result) memory.old memory.new }
{
    let Some(said) = &read_said(line.as_bytes(), written) else {
        put_fault(body, line.as_bytes(), memory)?;
        return Ok(Turn::Bad);
    };
    let answer = world.obey_counted(said, room, refusals);
    put_answer(body, said, &answer, world, alloc, memory)?;
    Ok(Turn::On)
}
