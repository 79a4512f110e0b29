//! A machine to which lines are told, and what is told of each.
ghost use Rattle.std.specs.Prelude.{◌≡◌, ◌++◌, IfOk, OnOk, false, is_err};
ghost use Rattle.lab_main.specs.Telling.{Tells, fresh, if_any};
ghost use Rattle.lab_main.specs.Texts.{ending};
ghost use Rattle.lab_main.specs.Turns.{Took};
ghost use Rattle.memory.specs.Refusing.{Rises};

use crate::answering::{Turn, answer_line};
use crate::machine::Machine;
use crate::shows::Shows;
use crate::texts::{put_ending, put_shown};
use lab_text::Text;
use memory::Memory;
use std::alloc::{AllocError, Global};
use std::marker::Model;

/// A machine to which lines are told. A contract sees its world and what that was refused, how many lines were told,
/// which of them were bad, and whether it is over.
#[derive(Drop)]
pub(crate) struct Lab {
    pub(crate) machine: Machine,
    lines: u64,
    bad: Vec<u64>,
    over: bool,
    alloc: Global,
}

impl Model for Lab {
    ghost use Rattle.lab_main.specs.Telling.{State};

    ghost Value = { State };

    ghost view = { λ l. record {
      world = l.machine.world;
      refused = l.machine.refused;
      lines = l.lines;
      bad = l.bad.items;
      over = l.over;
    } };
}

impl Lab {
    /// An empty world, to which no line was told.
    pub(crate) fn new(
        alloc: Global,
        refusals: Memory,
        memory: &mut Memory,
    ) -> Result<Lab, AllocError>
        requires { refusals ≡ 0 }
        ensures fresh { IfOk result (λ lab. lab ≡ fresh) }
        ensures counted { Rises (is_err result) memory.old memory.new }
    {
        Ok(Lab {
            machine: Machine::new(alloc, refusals, memory)?,
            lines: 0,
            bad: Vec::new(alloc),
            over: false,
            alloc,
        })
    }

    /// Puts what is told of a line in the place of what `text` has; `body` is room for a part of it. Behind `?quit` no
    /// line is told.
    pub(crate) fn tell(
        &mut self,
        shows: Shows,
        line: &[u8],
        body: &mut Text,
        text: &mut Text,
        memory: &mut Memory,
    ) -> Result<(), AllocError>
        requires goes_on { self.old.over ≡ false }
        ensures told { OnOk result (Tells shows self.old line.now text.new self.new) }
        ensures counted { Rises (is_err result) memory.old memory.new }
    {
        body.clear();
        text.clear();
        let turn = answer_line(self.alloc, &mut self.machine, line, body, memory)?;
        self.take(turn, memory)?;
        put_shown(shows, self.lines, line, body.as_bytes(), text, memory)?;
        Ok(())
    }

    /// Counts a line, which may be bad, or the last.
    fn take(&mut self, turn: Turn, memory: &mut Memory) -> Result<(), AllocError>
        ensures took { OnOk result (Took turn self.old self.new) }
        ensures counted { Rises (is_err result) memory.old memory.new }
    {
        self.lines = self.lines.saturating_add(1);
        match turn {
            Turn::On => {}
            Turn::Bad => memory.push(&mut self.bad, self.lines)?,
            Turn::Quit => self.over = true,
        }
        Ok(())
    }

    /// Appends what is told behind all lines: which of them were bad, where some were.
    pub(crate) fn put_ending(&self, text: &mut Text, memory: &mut Memory) -> Result<(), AllocError>
        ensures put { OnOk result (text.new ≡ text.old ++ ending self.now.bad) }
        ensures counted { Rises (is_err result) memory.old memory.new }
    {
        put_ending(text, &self.bad, memory)
    }

    /// Whether some line was bad.
    pub(crate) fn has_bad(&self) -> bool
        ensures { result ≡ if_any self.now.bad }
    {
        !self.bad.is_empty()
    }

    /// Whether `?quit` was told.
    pub(crate) fn is_over(&self) -> bool
        ensures { result ≡ self.now.over }
    {
        self.over
    }
}
