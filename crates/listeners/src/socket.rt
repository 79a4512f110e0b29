ghost use Rattle.std.specs.Prelude.{◌≡◌, [], map};
ghost use Rattle.std.specs.List.{list_any, position};
ghost use Rattle.listeners.specs.Open.{seen};
ghost use Rattle.listeners.specs.Queue.{IsMessage};
ghost use Rattle.listeners.specs.Sockets.{opened, emptied, has_id, hears, after_delivery, delivered as delivered_to};
ghost use Rattle.listeners.specs.Told.{told_of};

use crate::queue::Queue;
use crate::told::SocketTold;
use sock_addrs::Name;

/// A message to be delivered.
#[derive(Drop)]
pub(crate) struct Message<'a> {
    pub(crate) bytes: &'a [u8],
    /// The family of the address that it is about.
    pub(crate) family: u8,
    /// The writer whose reply it is, if it is one.
    pub(crate) own: Option<Name>,
}

/// An open socket.
#[derive(Drop)]
pub(crate) struct Socket {
    pub(crate) id: Name,
    pub(crate) pid: u32,
    /// The family whose messages it hears, or 0 for all.
    pub(crate) protocol: u8,
    /// Whether it hears the replies to its own writes.
    loopback: bool,
    pub(crate) queue: Queue,
    /// How many messages that it heard found no room in the queue.
    pub(crate) lost: u64,
}

impl Socket {
    /// A socket as it is opened, with loopback on.
    pub(crate) fn open(id: Name, pid: u32, protocol: u8, queue: Queue) -> Socket
        requires { queue ≡ [] }
        ensures { seen result ≡ opened id pid protocol }
    {
        Socket {
            id,
            pid,
            protocol,
            loopback: true,
            queue,
            lost: 0,
        }
    }

    /// Whether this is its id.
    pub(crate) fn has_id(&self, id: Name) -> bool
        ensures { result ≡ has_id id (seen self.now) }
    {
        self.id.is(&id)
    }

    /// Whether it hears a message.
    fn hears(&self, message: &Message) -> bool
        ensures { result ≡ hears message.now.family message.now.own (seen self.now) }
    {
        let is_own = match message.own {
            Some(writer) => self.has_id(writer),
            None => false,
        };
        (self.protocol == 0 || self.protocol == message.family) && (self.loopback || !is_own)
    }

    /// Turns loopback on or off.
    pub(crate) fn set_loopback(&mut self, on: bool)
        ensures { self.new ≡ record self.old { loopback = on } }
    {
        self.loopback = on;
    }

    /// Keeps the message if it hears it and the queue has room for the whole of it; if it hears it and there is no
    /// room, the message is lost.
    fn hear(&mut self, message: &Message)
        requires { IsMessage message.now.bytes.now }
        ensures { seen self.new
            ≡ after_delivery message.now.bytes.now message.now.family message.now.own (seen self.old) }
    {
        if !self.hears(message) {
            return;
        }
        if self.queue.has_room(message.bytes.len()) {
            self.queue.push(message.bytes);
        } else {
            self.lost = self.lost.saturating_add(1);
        }
    }

    /// Moves its messages into a queue, whose own are lost.
    pub(crate) fn move_to(&mut self, queue: &mut Queue)
        ensures messages { queue.new ≡ self.old.queue }
        ensures empty { seen self.new ≡ emptied (seen self.old) }
    {
        self.queue.move_to(queue);
    }

    /// What is told of it.
    pub(crate) fn told(&self) -> SocketTold
        ensures { result ≡ told_of (seen self.now) }
    {
        SocketTold {
            id: self.id,
            pid: self.pid,
            protocol: self.protocol,
            loopback: self.loopback,
            waiting: self.queue.size(),
            lost: self.lost,
        }
    }
}

/// The place of the socket with this id.
pub(crate) fn place_of(sockets: &[Socket], id: Name) -> Option<usize>
    ensures { result ≡ position (λ s. has_id id (seen s)) sockets.now }
{
    sockets.iter().position(|socket| socket.has_id(id))
}

/// Whether a socket with this id is open.
pub(crate) fn is_open(sockets: &[Socket], id: Name) -> bool
    ensures { result ≡ list_any (λ s. has_id id (seen s)) sockets.now }
{
    sockets.iter().any(|socket| socket.has_id(id))
}

/// Delivers a message to all sockets that hear it.
pub(crate) fn deliver(sockets: &mut [Socket], message: &Message)
    requires { IsMessage message.now.bytes.now }
    ensures { map seen sockets.new
        ≡ delivered_to message.now.bytes.now message.now.family message.now.own (map seen sockets.old) }
{
    for socket in sockets {
        socket.hear(message);
    }
}
