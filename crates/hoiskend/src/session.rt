//! A world with what it answered last, and with the count of refused memory.
ghost use Rattle.std.specs.Prelude.{◌≡◌, ◌-◌, ◌^◌, IfOk, Some, None, Ok, Err, false, is_err, length, min, unwrap_or};
ghost use Rattle.memory.specs.Refusing.{Rises};
ghost use Rattle.event_file.specs.Answers.{response_text};
ghost use Rattle.event_file.specs.Given.{given};
ghost use Rattle.if_addrs.specs.Told.{interface_told, next_address};
ghost use Rattle.listeners.specs.Queue.{joined};
ghost use Rattle.listeners.specs.Told.{socket_told};
ghost use Rattle.route_core.specs.Told.{stored};
ghost use Rattle.route_core.specs.declared.answer.Answer.TheVariants.{Messages};
ghost use Rattle.route_core.specs.declared.command.Command.TheVariants.{Packet, Read as ReadOf};
ghost use Rattle.hoiskend.specs.Sessions.{fresh, Answers, code_of as code, heard, is_short, route_in, size_in, text_of, told_by};

use crate::codes::BAD;
use crate::route::Route;
use event_file::{Bad, give_text};
use if_addrs::{AddressTold, InterfaceTold};
use listeners::SocketTold;
use mask_table::Rank;
use memory::Memory;
use route_core::laws::effects_have_memory;
use route_core::{Answer, Command, Queue, Received, RouteTold, Said, World};
use sock_addrs::{Inet, Name};
use std::alloc::{AllocError, Global};
use std::marker::Model;

/// A world, what was answered last, and how often memory was refused. A contract sees all three.
#[derive(Drop)]
pub(crate) struct Session {
    world: World,
    /// The messages of the last read.
    read: Queue,
    last: Last,
    /// By which all memory is asked for that a call wants.
    memory: Memory,
}

/// What was answered last.
#[derive(Drop)]
enum Last {
    /// Nothing was yet, or the last line gives no answer.
    Nothing,
    /// This, which is no read's.
    Response(Result<Answer<'static>, Bad>),
    /// The messages of a read.
    Read,
}

impl Model for Session {
    ghost use Rattle.hoiskend.specs.Sessions.{Session};
    ghost use Rattle.hoiskend.specs.Last.{response_of};

    ghost Value = { Session };

    ghost view = { λ s. record { world = s.world; response = response_of s.read s.last; refused = s.memory } };
}

impl Session {
    /// An empty world. `Err` where there is no memory for it, which is counted.
    pub(crate) fn new(alloc: Global, memory: &mut Memory) -> Result<Session, AllocError>
        ensures fresh { IfOk result (λ s. s ≡ fresh) }
        ensures counted { Rises (is_err result) memory.old memory.new }
    {
        Ok(Session {
            world: World::new_counted(alloc, memory)?,
            read: Queue::new(alloc, memory)?,
            last: Last::Nothing,
            memory: Memory::new(),
        })
    }

    /// Gives the world a command, and answers its code: 0, or the errno of what refused it. Where the answer is that
    /// there is no memory, and only there, it was refused, and counted.
    pub(crate) fn obey(&mut self, said: &Said<'_>) -> u32
        ensures step { Answers self.old.world said.now result self.new.response self.new.world }
        ensures counted { Rises (is_short self.new.response) self.old.refused self.new.refused }
    {
        if let Command::Read { id } = said {
            return self.read(*id);
        }
        let answer = self.world.answer_counted(said, &mut self.memory);
        self.keep(answer)
    }

    /// Finds the route of a packet, and puts it into `route`, where there is one. Answers as `obey`.
    pub(crate) fn packet(&mut self, destination: Inet, route: &mut Route) -> u32
        ensures step { Answers self.old.world (Packet destination) result self.new.response self.new.world }
        ensures route { route.new ≡ unwrap_or (told_by route_in self.new.response) route.old }
        ensures counted { Rises (is_short self.new.response) self.old.refused self.new.refused }
    {
        let answer = self.world.packet_counted(destination, &mut self.memory);
        match &answer {
            Answer::Routed(choice) => *route = Route::of(choice, false),
            Answer::Dropped(choice) => *route = Route::of(choice, true),
            _ => {}
        }
        self.keep(answer)
    }

    /// Gives the world a command, and puts the size that it is answered into `size`, where it is one. Answers as
    /// `obey`.
    pub(crate) fn size(&mut self, said: &Said<'_>, size: &mut u64) -> u32
        ensures step { Answers self.old.world said.now result self.new.response self.new.world }
        ensures size { size.new ≡ unwrap_or (told_by size_in self.new.response) size.old }
        ensures counted { Rises (is_short self.new.response) self.old.refused self.new.refused }
    {
        let code = self.obey(said);
        if let Last::Response(Ok(Answer::Size(told))) = &self.last {
            *size = *told;
        }
        code
    }

    /// Puts the bytes of the messages that were answered last to the front of `out`, where there is room for all of
    /// them, and answers how many they are.
    pub(crate) fn fetch(&self, out: &mut [u8]) -> usize
        ensures size { result ≡ length (joined (heard self.now.response)) }
        ensures bytes { out.new ≡ given (joined (heard self.now.response)) out.old }
    {
        let bytes = match &self.last {
            Last::Response(Ok(Answer::Messages(received, _))) => received.as_bytes(),
            Last::Read => self.read.as_bytes(),
            _ => &[],
        };
        let size = bytes.len();
        if size <= out.len() {
            out[..size].copy_from_slice(bytes);
        }
        size
    }

    /// Puts the text of what was answered last to the front of `out`, where there is room for all of it, and answers
    /// how many bytes it has, at most `usize::MAX`.
    pub(crate) fn text(&self, out: &mut [u8]) -> usize
        ensures size { result ≡ min (length (text_of self.now.response)) (2 ^ 64 - 1) }
        ensures text { out.new ≡ given (text_of self.now.response) out.old }
    {
        match &self.last {
            Last::Nothing => 0,
            Last::Response(response) => give_text(response, out),
            Last::Read => text_of_read(&self.read, out),
        }
    }

    /// The interface with this number.
    pub(crate) fn interface(&self, index: u16) -> Option<InterfaceTold>
        ensures { result ≡ interface_told index self.now.world.interfaces }
    {
        self.world.interface(index)
    }

    /// The first address, from this place on, of the interface with this number.
    pub(crate) fn next_address(&self, index: u16, place: usize) -> Option<AddressTold>
        ensures { result ≡ next_address index place self.now.world.interfaces }
    {
        self.world.next_address(index, place)
    }

    /// The socket at this place.
    pub(crate) fn socket(&self, place: usize) -> Option<SocketTold>
        ensures { result ≡ socket_told place self.now.world.sockets }
    {
        self.world.socket(place)
    }

    /// The route with this key and rank.
    pub(crate) fn route(&mut self, key: Inet, rank: Rank) -> Option<RouteTold>
        ensures told { result ≡ stored key rank self.old.world }
        ensures kept { self.new ≡ self.old }
    {
        self.world.route(key, rank)
    }

    /// Takes the messages of a socket. Answers as `obey`.
    fn read(&mut self, id: Name) -> u32
        ensures step { Answers self.old.world (ReadOf id) result self.new.response self.new.world }
        ensures spared { is_short self.new.response ≡ false }
        ensures uncounted { self.new.refused ≡ self.old.refused }
    {
        // A fact for the proof: the machine's own answer is never 55, on which `spared` rests.
        effects_have_memory();
        match self.world.move_to(id, &mut self.read) {
            Ok(()) => told_read(&mut self.last),
            Err(errno) => self.keep(Answer::Refused(errno)),
        }
    }

    /// Has nothing to tell of a line that gives no answer.
    pub(crate) fn pass(&mut self) -> u32
        ensures code { result ≡ 0 }
        ensures kept { self.new ≡ record self.old { response = None } }
    {
        self.last = Last::Nothing;
        0
    }

    /// Keeps that a line is bad, and answers the code of that.
    pub(crate) fn reject(&mut self, bad: Bad) -> u32
        ensures code { result ≡ BAD }
        ensures kept { self.new ≡ record self.old { response = Some (Err bad) } }
    {
        self.last = Last::Response(Err(bad));
        BAD
    }

    /// Keeps what was answered, and answers its code.
    fn keep(&mut self, answer: Answer<'static>) -> u32
        ensures code { result ≡ code answer.entry }
        ensures kept { self.new ≡ record self.old { response = Some (Ok answer.entry) } }
    {
        let code = code_of(&answer);
        self.last = Last::Response(Ok(answer));
        code
    }
}

/// Says that a read's messages were answered, and answers the code of that.
fn told_read(last: &mut Last) -> u32
    ensures code { result ≡ 0 }
    ensures last { last.new ≡ Last.Read }
{
    *last = Last::Read;
    0
}

/// Puts the text of a read's answer to the front of `out`, as `give_text`.
fn text_of_read(read: &Queue, out: &mut [u8]) -> usize
    ensures size { result ≡ min (length (response_text (Ok (Messages read.now None)))) (2 ^ 64 - 1) }
    ensures text { out.new ≡ given (response_text (Ok (Messages read.now None))) out.old }
{
    let answer = Answer::Messages(Received::lent(read.as_bytes()), None);
    give_text(&Ok(answer), out)
}

/// The number of an answer: 0, or the errno.
fn code_of(answer: &Answer) -> u32
    ensures { result ≡ code answer.now }
{
    match answer {
        Answer::Refused(errno) | Answer::Messages(_, Some(errno)) => errno.number(),
        _ => 0,
    }
}
