ghost use Rattle.std.specs.Prelude.{◌≡◌, ◌≤◌, false, length, is_err, IfOk, OnErr};
ghost use Rattle.memory.specs.Refusing.{Rises};
ghost use Rattle.route_ops.specs.Standing.{brought};
ghost use Rattle.route_core.specs.Commands.{is_read};
ghost use Rattle.route_core.specs.Tried.{answer_to as answer_of, read_or_refused};
ghost use Rattle.route_core.specs.World.{empty_world};
ghost use Rattle.route_core.specs.Step.{IsStep, Steps, StepsCounted, effect, lacks_memory};
ghost use Rattle.route_core.specs.declared.command.Command.TheVariants.{Attach, Close, Loopback, Lost, Open, Read};

use crate::replies::ReplyBuffer;
use crate::tried::{answer_to, done_or_refused};
use crate::{Answer, Command, Kind, LinkAddress, Queue, Received, Room, Said};
use if_addrs::Interfaces;
use listeners::Listeners;
use memory::Memory;
use radix_tree::Table;
use route_entries::{Blocks, PackedRoute};
use route_msgs::Message;
use sock_addrs::{Errno, Name};
use std::alloc::{AllocError, Global};
use std::marker::Model;

/// What a script works on. A contract sees its routes, interfaces and sockets.
#[derive(Drop)]
pub struct World {
    pub(crate) table: Table<PackedRoute>,
    /// For routes to come that aren't kept small.
    pub(crate) blocks: Blocks,
    pub(crate) interfaces: Interfaces,
    pub(crate) listeners: Listeners,
    pub(crate) reply: ReplyBuffer,
    /// Room for the reply to a GET, which isn't the written message.
    pub(crate) got: Message,
    pub(crate) alloc: Global,
}

impl Model for World {
    ghost use Rattle.route_core.specs.World.{World};
    ghost use Rattle.route_ops.specs.Standing.{AreOf};

    ghost Value = { World };

    ghost view = { λ w. record { table = w.table.entries; interfaces = w.interfaces; sockets = w.listeners } };

    ghost invariant = { λ w. AreOf w.interfaces w.table.entries };
}

impl World {
    /// A world without routes, interfaces and sockets, with room for the reply to a write. `Err` where there is no
    /// memory for it.
    pub fn new(alloc: Global) -> Result<World, AllocError>
        ensures { IfOk result (λ w. w ≡ empty_world) }
    {
        World::new_counted(alloc, &mut Memory::new())
    }

    /// As `new`; `Err` exactly where memory was refused.
    pub fn new_counted(alloc: Global, memory: &mut Memory) -> Result<World, AllocError>
        ensures empty { IfOk result (λ w. w ≡ empty_world) }
        ensures counted { Rises (is_err result) memory.old memory.new }
    {
        // By its contract (`made`) `Table::new` is always `Ok`; the `Result` is the signature that its callers have.
        let Ok(table) = Table::new(alloc) else {
            unreachable!()
        };
        Ok(World {
            table,
            blocks: Blocks::new(alloc),
            interfaces: Interfaces::new(alloc),
            listeners: Listeners::new(alloc),
            reply: ReplyBuffer::new(alloc, memory)?,
            got: Message::new(),
            alloc,
        })
    }

    /// Takes one command: the answer and the world after it are the list machine's, or, where the command may want
    /// memory, the answer is ENOBUFS and the world stays as it was. It brings at most two routes that were not there,
    /// and tells at most two messages. What a socket read is put into `room`, and lent from there.
    pub fn step<'a>(&mut self, command: &Command, room: &'a mut Room) -> Answer<'a>
        ensures step { Steps self.old command.now result self.new }
        ensures few_routes { brought self.old.table self.new.table ≤ 2 }
        ensures few_messages { length (effect self.old command.now).told ≤ 2 }
    {
        self.obey(&command.said(), room)
    }

    /// As `step`; the answer is ENOBUFS exactly where memory was refused, which is counted.
    pub fn step_counted<'a>(
        &mut self,
        command: &Command,
        room: &'a mut Room,
        memory: &mut Memory,
    ) -> Answer<'a>
        ensures step { StepsCounted self.old command.now result self.new memory.old memory.new }
        ensures few_routes { brought self.old.table self.new.table ≤ 2 }
        ensures few_messages { length (effect self.old command.now).told ≤ 2 }
    {
        self.obey_counted(&command.said(), room, memory)
    }

    /// Takes one command whose bytes lie elsewhere, as `step` takes it.
    pub fn obey<'a>(&mut self, said: &Said<'_>, room: &'a mut Room) -> Answer<'a>
        ensures step { Steps self.old said.now result self.new }
        ensures few_routes { brought self.old.table self.new.table ≤ 2 }
        ensures few_messages { length (effect self.old said.now).told ≤ 2 }
    {
        self.obey_counted(said, room, &mut Memory::new())
    }

    /// Takes one command whose bytes lie elsewhere, as `step_counted` takes it.
    #[tactic(auto, using(crate::proofs::Counting::caused))]
    pub fn obey_counted<'a>(
        &mut self,
        said: &Said<'_>,
        room: &'a mut Room,
        memory: &mut Memory,
    ) -> Answer<'a>
        ensures step { StepsCounted self.old said.now result self.new memory.old memory.new }
        ensures few_routes { brought self.old.table self.new.table ≤ 2 }
        ensures few_messages { length (effect self.old said.now).told ≤ 2 }
    {
        self.take_command(said, room, memory)
    }

    /// Takes one command, of which a read alone wants the room.
    fn take_command<'a>(
        &mut self,
        said: &Said<'_>,
        room: &'a mut Room,
        memory: &mut Memory,
    ) -> Answer<'a>
        ensures step { Steps self.old said.now result self.new }
        ensures counted { Rises (lacks_memory result) memory.old memory.new }
    {
        if let Command::Read { id } = said {
            return self.take(*id, room);
        }
        self.answer_counted(said, memory)
    }

    /// Takes one command that reads no socket, each by the call of its name; nothing of its answer is lent. The answer
    /// is ENOBUFS exactly where memory was refused, which is counted.
    // It is inlined, so that the answer is made in the caller's place: to move it took 9 to 60 instructions a line.
    #[inline(always)]
    #[tactic(auto, using(crate::proofs::FewBrought::messages_are_few))]
    pub fn answer_counted(&mut self, said: &Said<'_>, memory: &mut Memory) -> Answer<'static>
        requires { is_read said.now ≡ false }
        ensures step { Steps self.old said.now result self.new }
        ensures counted { Rises (lacks_memory result) memory.old memory.new }
        ensures few_routes { brought self.old.table self.new.table ≤ 2 }
        ensures few_messages { length (effect self.old said.now).told ≤ 2 }
    {
        match said {
            Command::Attach {
                name,
                kind,
                type_number,
                link,
            } => self.attach_counted(*name, *kind, *type_number, *link, memory),
            Command::AddAddress {
                name,
                address,
                prefix,
                cloning,
                far,
            } => self.add_address_counted(*name, *address, *prefix, *cloning, *far, memory),
            Command::RemoveAddress { name, address } => self.remove_address(*name, *address),
            Command::Open { id, pid, protocol } => self.listen_counted(
                *id, *pid, *protocol, memory,
            ),
            Command::Close { id } => self.shut(*id),
            Command::Loopback { id, on } => self.set_loopback(*id, *on),
            Command::Write { id, bytes } => self.write_counted(*id, bytes.as_slice(), memory),
            Command::Read { .. } => unreachable!(),
            Command::Lost { id } => self.lost(*id),
            Command::Packet { destination } => self.packet_counted(*destination, memory),
            Command::Redirect(asked) => self.redirect_counted(asked, memory),
            Command::Losing { destination } => self.losing(*destination),
            Command::DumpSize { filter } => self.dump_size(*filter),
            Command::Dump { filter, room } => self.dump_counted(*filter, *room, memory),
        }
    }

    /// Attaches an interface. EEXIST: the name is there; ENOSPC: there are 64 interfaces; ENOBUFS: there is no memory.
    pub fn attach(
        &mut self,
        name: Name,
        kind: Kind,
        type_number: u8,
        link: LinkAddress,
    ) -> Answer<'static>
        ensures { Steps self.old (Attach name kind type_number link) result self.new }
    {
        self.attach_counted(name, kind, type_number, link, &mut Memory::new())
    }

    /// As `attach`; the answer is ENOBUFS exactly where memory was refused.
    #[tactic(auto, unfolding(crate::specs::Step::effect, crate::specs::Step::takes_memory))]
    pub fn attach_counted(
        &mut self,
        name: Name,
        kind: Kind,
        type_number: u8,
        link: LinkAddress,
        memory: &mut Memory,
    ) -> Answer<'static>
        ensures step { Steps self.old (Attach name kind type_number link) result self.new }
        ensures counted { Rises (lacks_memory result) memory.old memory.new }
    {
        done_or_refused(
            self.interfaces
                .attach(name, kind, type_number, &link, memory),
        )
    }

    /// Opens a socket, with room for its queue. EEXIST: the id is open; EMFILE: 64 sockets are open; ENOBUFS: there is
    /// no memory.
    pub fn listen(&mut self, id: Name, pid: u32, protocol: u8) -> Answer<'static>
        ensures { Steps self.old (Open id pid protocol) result self.new }
    {
        self.listen_counted(id, pid, protocol, &mut Memory::new())
    }

    /// As `listen`; the answer is ENOBUFS exactly where memory was refused.
    #[tactic(auto, unfolding(crate::specs::Step::effect, crate::specs::Step::takes_memory))]
    pub fn listen_counted(
        &mut self,
        id: Name,
        pid: u32,
        protocol: u8,
        memory: &mut Memory,
    ) -> Answer<'static>
        ensures step { Steps self.old (Open id pid protocol) result self.new }
        ensures counted { Rises (lacks_memory result) memory.old memory.new }
    {
        done_or_refused(self.listeners.listen(id, pid, protocol, memory))
    }

    /// Closes a socket; its queue goes with it. EBADF: it isn't open. It wants no memory.
    #[tactic(auto, unfolding(crate::specs::Step::effect, crate::specs::Step::takes_memory))]
    pub fn shut(&mut self, id: Name) -> Answer<'static>
        ensures { IsStep self.old (Close id) result self.new }
    {
        done_or_refused(self.listeners.shut(id))
    }

    /// Whether a socket hears the replies to its own writes. EBADF: it isn't open. It wants no memory.
    #[tactic(auto, unfolding(crate::specs::Step::effect, crate::specs::Step::takes_memory))]
    pub fn set_loopback(&mut self, id: Name, on: bool) -> Answer<'static>
        ensures { IsStep self.old (Loopback id on) result self.new }
    {
        done_or_refused(self.listeners.set_loopback(id, on))
    }

    /// Takes the messages that a socket has heard: its queue and `room` are exchanged, which holds them from then on.
    /// EBADF: it isn't open. It wants no memory.
    pub fn take<'a>(&mut self, id: Name, room: &'a mut Room) -> Answer<'a>
        ensures { IsStep self.old (Read id) result self.new }
    {
        answer_to(self.try_take(id, room))
    }

    #[tactic(auto, unfolding(crate::specs::Step::effect))]
    fn try_take<'a>(&mut self, id: Name, room: &'a mut Room) -> Result<Answer<'a>, Errno>
        ensures { IsStep self.old (Read id) (answer_of result) self.new }
    {
        let bytes = self.listeners.take(id, room)?;
        Ok(Answer::Messages(Received::lent(bytes), None))
    }

    /// Takes the messages that a socket has heard, as `take` does, but moves them into `queue`, whose own are lost.
    /// EBADF: it isn't open, and `queue` stays as it was. It wants no memory.
    #[tactic(auto, unfolding(crate::specs::Step::effect))]
    pub fn move_to(&mut self, id: Name, queue: &mut Queue) -> Result<(), Errno>
        ensures step { IsStep self.old (Read id) (read_or_refused result queue.new) self.new }
        ensures unread { OnErr result (queue.new ≡ queue.old) }
    {
        self.listeners.move_to(id, queue)
    }

    /// How many messages a socket has lost since it was opened. EBADF: it isn't open. It wants no memory.
    pub fn lost(&mut self, id: Name) -> Answer<'static>
        ensures { IsStep self.old (Lost id) result self.new }
    {
        answer_to(self.try_lost(id))
    }

    #[tactic(auto, unfolding(crate::specs::Step::effect))]
    fn try_lost(&mut self, id: Name) -> Result<Answer<'static>, Errno>
        ensures { IsStep self.old (Lost id) (answer_of result) self.new }
    {
        Ok(Answer::Size(self.listeners.lost(id)?))
    }
}
