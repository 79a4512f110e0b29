//! The functions that ask for a route: each is the write, to a socket, of the message that the words of the request
//! compose.
ghost use Rattle.hoiskend.specs.Requests.{request_asked};
ghost use Rattle.hoiskend.specs.Sessions.{Asks, Calls};

use crate::calls::obey;
use crate::{Handle, Request, asked};
use event_file::{Verb, compose};
use sock_addrs::Errno;

/// Adds a route. EINVAL: an id, a mask or a gateway that is none.
#[unsafe(no_mangle)]
pub extern "C" fn hk_add_route_n(world: &mut Handle, id: &[u8], request: &Request) -> u32
    ensures { Calls world.old.session (Asks (request_asked Verb.Add id.now request.now)) result world.new.session }
{
    ask(world, Verb::Add, id, request)
}

/// Deletes a route. EINVAL: an id, a mask or a gateway that is none.
#[unsafe(no_mangle)]
pub extern "C" fn hk_delete_route_n(world: &mut Handle, id: &[u8], request: &Request) -> u32
    ensures { Calls world.old.session (Asks (request_asked Verb.Delete id.now request.now)) result world.new.session }
{
    ask(world, Verb::Delete, id, request)
}

/// Changes a route. EINVAL: an id, a mask or a gateway that is none.
#[unsafe(no_mangle)]
pub extern "C" fn hk_change_route_n(world: &mut Handle, id: &[u8], request: &Request) -> u32
    ensures { Calls world.old.session (Asks (request_asked Verb.Change id.now request.now)) result world.new.session }
{
    ask(world, Verb::Change, id, request)
}

/// Asks for a route. EINVAL: an id, a mask or a gateway that is none.
#[unsafe(no_mangle)]
pub extern "C" fn hk_get_route_n(world: &mut Handle, id: &[u8], request: &Request) -> u32
    ensures { Calls world.old.session (Asks (request_asked Verb.Get id.now request.now)) result world.new.session }
{
    ask(world, Verb::Get, id, request)
}

/// Locks metrics of a route. EINVAL: an id, a mask or a gateway that is none.
#[unsafe(no_mangle)]
pub extern "C" fn hk_lock_route_n(world: &mut Handle, id: &[u8], request: &Request) -> u32
    ensures { Calls world.old.session (Asks (request_asked Verb.Lock id.now request.now)) result world.new.session }
{
    ask(world, Verb::Lock, id, request)
}

/// Writes the message that the words of a request compose.
#[tactic(auto, unfolding(crate::specs::Sessions::Calls, crate::specs::Requests::request_asked))]
fn ask(world: &mut Handle, verb: Verb, id: &[u8], request: &Request) -> u32
    ensures { Calls world.old.session (Asks (request_asked verb id.now request.now)) result world.new.session }
{
    if !world.is_open() {
        return Errno::EINVAL.number();
    }
    let Some(words) = request.words(verb) else {
        return Errno::EINVAL.number();
    };
    let message = compose(&words);
    obey(world, asked::write(id, &message))
}
