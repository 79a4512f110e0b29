//! Dumps of the table.
ghost use Rattle.std.specs.Prelude.{◌≡◌};
ghost use Rattle.memory.specs.Refusing.{Rises};
ghost use Rattle.route_core.specs.Tried.{answer_to as answer_of};
ghost use Rattle.route_core.specs.Step.{IsStep, Steps, lacks_memory, size_to_ask as size_to_ask_of};
ghost use Rattle.route_core.specs.declared.command.Command.TheVariants.{Dump, DumpSize};

use crate::tried::answer_to;
use crate::{Answer, Received, World};
use memory::Memory;
use sock_addrs::Errno;
use table_dump::{dump_into, total};

impl World {
    /// How many bytes to ask for a dump of all routes, or of those with a flag of the filter: as many as it takes and
    /// a tenth more, or `u64::MAX`. It wants no memory.
    #[tactic(auto, unfolding(crate::specs::Step::effect, crate::specs::Step::takes_memory))]
    pub fn dump_size(&mut self, filter: Option<u32>) -> Answer<'static>
        ensures { IsStep self.old (DumpSize filter) result self.new }
    {
        let mut visits = self.table.begin();
        Answer::Size(size_to_ask(total(&self.table, &mut visits, filter)))
    }

    /// Dumps all routes, or those with a flag of the filter, into so many bytes: as many whole messages from the front
    /// as fit, and ENOMEM beside them where they are not all. Refused by ENOBUFS: there is no memory.
    pub fn dump(&mut self, filter: Option<u32>, room: u32) -> Answer<'static>
        ensures { Steps self.old (Dump filter room) result self.new }
    {
        self.dump_counted(filter, room, &mut Memory::new())
    }

    /// As `dump`; the answer is ENOBUFS exactly where memory was refused.
    pub fn dump_counted(
        &mut self,
        filter: Option<u32>,
        room: u32,
        memory: &mut Memory,
    ) -> Answer<'static>
        ensures step { Steps self.old (Dump filter room) result self.new }
        ensures counted { Rises (lacks_memory result) memory.old memory.new }
    {
        answer_to(self.try_dump(filter, room, memory))
    }

    #[tactic(auto, unfolding(crate::specs::Step::effect, crate::specs::Step::takes_memory))]
    fn try_dump(
        &mut self,
        filter: Option<u32>,
        room: u32,
        memory: &mut Memory,
    ) -> Result<Answer<'static>, Errno>
        ensures step { Steps self.old (Dump filter room) (answer_of result) self.new }
        ensures counted { Rises (lacks_memory (answer_of result)) memory.old memory.new }
    {
        let mut visits = self.table.begin();
        let (bytes, left_out) = dump_into(
            self.alloc,
            memory,
            &self.table,
            &self.interfaces,
            &mut visits,
            room,
            filter,
        )?;
        Ok(Answer::Messages(Received::new(bytes), left_out))
    }
}

/// As many bytes and a tenth more, rounded down, or `u64::MAX` where they are more.
fn size_to_ask(total: u64) -> u64
    ensures { result ≡ size_to_ask_of total }
{
    total.saturating_add(total / 10)
}
