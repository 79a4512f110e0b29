//! What a handle has in its block of memory.
ghost use Rattle.std.specs.Prelude.{◌≡◌, IfOk, is_err, length};
ghost use Rattle.event_file.specs.Grammar.{command_of};
ghost use Rattle.memory.specs.Refusing.{Rises};
ghost use Rattle.route_core.specs.declared.written.TheConstants.{MOST_WRITTEN};
ghost use Rattle.hoiskend.specs.Sessions.{Heeds, Replies, fresh};

use crate::session::Session;
use event_file::{Bad, is_passed, read_said};
use memory::Memory;
use route_core::MOST_WRITTEN;
use std::alloc::{AllocError, Global};
use std::marker::Model;

/// A session, and room for the bytes of a write that a line spells. A contract sees the session.
#[derive(Drop)]
pub(crate) struct Held {
    pub(crate) session: Session,
    written: Vec<u8>,
}

impl Model for Held {
    ghost use Rattle.std.specs.Prelude.{◌≡◌, length};
    ghost use Rattle.route_core.specs.declared.written.TheConstants.{MOST_WRITTEN};
    ghost use Rattle.hoiskend.specs.Sessions.{Session};

    ghost Value = { Session };

    ghost view = { λ h. h.session };

    ghost invariant = { λ h. length h.written.items ≡ MOST_WRITTEN };
}

impl Held {
    /// A session of an empty world. `Err` where there is no memory for it, which is counted.
    pub(crate) fn new(alloc: Global, memory: &mut Memory) -> Result<Held, AllocError>
        ensures fresh { IfOk result (λ held. held ≡ fresh) }
        ensures counted { Rises (is_err result) memory.old memory.new }
    {
        Ok(Held {
            session: Session::new(alloc, memory)?,
            written: memory.zeros(alloc, MOST_WRITTEN)?,
        })
    }

    /// Takes a line of a script, without its newline, and answers the code of its command, as `obey`; 0 where it gives
    /// no answer; or `BAD` where the grammar doesn't have it.
    pub(crate) fn heed(&mut self, line: &[u8]) -> u32
        ensures { Heeds self.old line.now result self.new }
    {
        if is_passed(line) {
            return self.session.pass();
        }
        reply(&mut self.session, line, &mut self.written)
    }
}

/// Takes a line that is to be answered. The bytes of a write that it spells are put into `room`.
fn reply(session: &mut Session, line: &[u8], room: &mut [u8]) -> u32
    requires { length room.old ≡ MOST_WRITTEN }
    ensures { Replies session.old (command_of line.now) result session.new }
{
    match read_said(line, room) {
        Some(said) => session.obey(&said),
        None => session.reject(Bad),
    }
}
