ghost use Rattle.std.specs.Prelude.{◌≡◌, [], ◌∷◌, ◌++◌, unwrap_or, ok_or, OnOk, OnErr, IfOk, IfErr};
ghost use Rattle.std.specs.List.{list_any};
ghost use Rattle.std.specs.Result.{result_err};
ghost use Rattle.listeners.specs.Queue.{cut, IsMessage, AreMessages};
ghost use Rattle.listeners.specs.Sockets.{closed_fault, has_id, listen_fault, opened, pid_of, lost_of, messages_of, delivered, taken, without, with_loopback};
ghost use Rattle.listeners.specs.Told.{socket_told};
ghost use Rattle.memory.specs.Refusing.{Rises};
ghost use Rattle.sock_addrs.specs.Errno.{is_no_memory};

use crate::limits::MOST_SOCKETS;
use crate::queue::Queue;
use crate::room::Room;
use crate::socket::{self, Message, Socket, is_open, place_of};
use crate::told::SocketTold;
use memory::Memory;
use sock_addrs::{Errno, Name};
use std::alloc::Global;
use std::marker::Model;

/// The open routing sockets with the messages that they have not yet read. A contract sees the sockets in the order in
/// which they were opened.
#[derive(Drop)]
pub struct Listeners {
    sockets: Vec<Socket>,
    alloc: Global,
}

impl Model for Listeners {
    ghost use Rattle.std.specs.Prelude.{List, map};
    ghost use Rattle.listeners.specs.Sockets.{Socket};

    ghost Value = { List Socket };

    ghost use Rattle.listeners.specs.Open.{seen};

    ghost view = { λ l. map seen l.sockets.items };
}

impl Listeners {
    /// No socket is open.
    pub fn new(alloc: Global) -> Listeners
        ensures { result ≡ [] }
    {
        Listeners {
            sockets: Vec::new(alloc),
            alloc,
        }
    }

    /// Opens a socket for a process, which hears the family `protocol`, or all where it is 0. Loopback is on. It gets
    /// all the memory that its queue will have, 8,192 bytes.
    ///
    /// Refused, in this order: EEXIST where the id is open; EMFILE where 64 sockets are; ENOBUFS for want of memory,
    /// which is counted.
    pub fn listen(
        &mut self,
        id: Name,
        pid: u32,
        protocol: u8,
        memory: &mut Memory,
    ) -> Result<(), Errno>
        ensures ok { OnOk result (listen_fault id self.old ≡ None) }
        ensures opened { OnOk result (self.new ≡ self.old ++ opened id pid protocol ∷ []) }
        ensures refused { IfErr result (λ e. e ≡ unwrap_or (listen_fault id self.old) Errno.ENOBUFS) }
        ensures kept { OnErr result (self.new ≡ self.old) }
        ensures counted { Rises (is_no_memory result) memory.old memory.new }
    {
        self.check_listen(id)?;
        let socket = Socket::open(id, pid, protocol, Queue::new(self.alloc, memory)?);
        memory.push(&mut self.sockets, socket)?;
        Ok(())
    }

    /// What refuses a socket with this id, but for want of memory.
    fn check_listen(&self, id: Name) -> Result<(), Errno>
        ensures { result_err result ≡ listen_fault id self.now }
    {
        if self.is_open(id) {
            return Err(Errno::EEXIST);
        }
        if self.sockets.len() >= MOST_SOCKETS {
            return Err(Errno::EMFILE);
        }
        Ok(())
    }

    fn is_open(&self, id: Name) -> bool
        ensures { result ≡ list_any (has_id id) self.now }
    {
        is_open(&self.sockets, id)
    }

    /// Closes a socket; what it has not read goes with it. EBADF where none of this id is open. Another can then be
    /// opened with the id, with an empty queue.
    pub fn shut(&mut self, id: Name) -> Result<(), Errno>
        ensures fault { result_err result ≡ closed_fault id self.old }
        ensures shut { OnOk result (self.new ≡ without id self.old) }
        ensures kept { OnErr result (self.new ≡ self.old) }
    {
        if !self.is_open(id) {
            return Err(Errno::EBADF);
        }
        self.sockets.retain(|socket| !socket.has_id(id));
        Ok(())
    }

    /// Turns loopback of a socket on or off, by which it hears the replies to its own writes or doesn't. EBADF where
    /// none of this id is open.
    pub fn set_loopback(&mut self, id: Name, on: bool) -> Result<(), Errno>
        ensures fault { result_err result ≡ closed_fault id self.old }
        ensures set { OnOk result (self.new ≡ with_loopback id on self.old) }
        ensures kept { OnErr result (self.new ≡ self.old) }
    {
        match place_of(&self.sockets, id) {
            Some(at) => {
                let socket = &mut self.sockets[at];
                socket.set_loopback(on);
                Ok(())
            }
            None => Err(Errno::EBADF),
        }
    }

    /// The pid of the process that opened the socket, or EBADF where none of this id is open.
    pub fn pid_of(&self, id: Name) -> Result<u32, Errno>
        ensures { result ≡ ok_or (pid_of id self.now) Errno.EBADF }
    {
        match place_of(&self.sockets, id) {
            Some(at) => Ok(self.sockets[at].pid),
            None => Err(Errno::EBADF),
        }
    }

    /// How many messages that the socket heard were lost since it was opened, because its queue had no room for them;
    /// at 2^64 - 1 the count stays. EBADF where none of this id is open.
    pub fn lost(&self, id: Name) -> Result<u64, Errno>
        ensures { result ≡ ok_or (lost_of id self.now) Errno.EBADF }
    {
        match place_of(&self.sockets, id) {
            Some(at) => Ok(self.sockets[at].lost),
            None => Err(Errno::EBADF),
        }
    }

    /// Delivers a message to all sockets that hear its family, but not to the socket `own`, whose reply it is, where
    /// that has loopback off. In whose queue it doesn't fit whole, there it is lost and counted. It takes no memory.
    pub fn deliver(&mut self, message: &[u8], family: u8, own: Option<Name>)
        requires { IsMessage message.now }
        ensures { self.new ≡ delivered message.now family own self.old }
    {
        let message = Message {
            bytes: message,
            family,
            own,
        };
        socket::deliver(&mut self.sockets, &message);
    }

    /// Takes the messages that wait for a socket into the room, and leaves none; or EBADF where none of this id is
    /// open. The bytes of the messages are lent from the room, one after another. It takes no memory.
    pub fn take<'a>(&mut self, id: Name, room: &'a mut Room) -> Result<&'a [u8], Errno>
        ensures whole { IfOk result (λ bytes. AreMessages bytes.now) }
        ensures messages { IfOk result (λ bytes. messages_of id self.old ≡ Some (cut bytes.now)) }
        ensures taken { OnOk result (self.new ≡ taken id self.old) }
        ensures refused { IfErr result (λ e. e ≡ Errno.EBADF) }
        ensures none { OnErr result (messages_of id self.old ≡ None) }
        ensures kept { OnErr result (self.new ≡ self.old) }
    {
        self.move_to(id, &mut room.queue)?;
        Ok(room.queue.as_bytes())
    }

    /// Moves the messages that wait for a socket into `queue`, whose own are lost, and leaves none; or EBADF where none
    /// of this id is open. It takes no memory.
    pub fn move_to(&mut self, id: Name, queue: &mut Queue) -> Result<(), Errno>
        ensures messages { OnOk result (messages_of id self.old ≡ Some queue.new) }
        ensures taken { OnOk result (self.new ≡ taken id self.old) }
        ensures refused { IfErr result (λ e. e ≡ Errno.EBADF) }
        ensures none { OnErr result (messages_of id self.old ≡ None) }
        ensures kept { OnErr result (self.new ≡ self.old) }
        ensures unread { OnErr result (queue.new ≡ queue.old) }
    {
        match place_of(&self.sockets, id) {
            Some(at) => {
                let socket = &mut self.sockets[at];
                socket.move_to(queue);
                Ok(())
            }
            None => Err(Errno::EBADF),
        }
    }

    /// What the socket at this place is, in the order in which they were opened, from 0 on, or `None` where there are
    /// not so many.
    pub fn socket(&self, place: usize) -> Option<SocketTold>
        ensures { result ≡ socket_told place self.now }
    {
        Some(self.sockets.get(place)?.told())
    }
}
