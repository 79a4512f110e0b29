//! A session in a block of memory of its own, by its address, which is all that C has of a world. Three functions here
//! follow it, and no other code of `hoiskend` follows a raw pointer: all else comes from C as slices and references.
ghost use Rattle.std.specs.Prelude.{◌≡◌, Option, Some, None, is_some};
ghost use Rattle.std.specs.Coded.{coded_option};
ghost use Rattle.std.specs.Borrow.{sem};
ghost use Rattle.hoiskend.specs.Sessions.{Session as Seen};
ghost use Rattle.hoiskend.specs.declared.held.Held.{the_code};
ghost use Rattle.hoiskend.specs.Open.{IsOpen};
ghost use Rattle.hoiskend.specs.Owning.{may_own};

use crate::held::Held;
use std::alloc::Global;
use std::marker::Model;
use std::ptr::null_mut;
use std_alloc::room::Vacant;

/// A session, or none. A contract sees it.
#[repr(C)]
pub struct Handle {
    at: *mut u8,
    pub ghost session: { Option Seen } by { coded_option the_code },
}

impl Model for Handle {
    ghost also_owns = { λ h. may_own h.at h.session };
}

impl Handle {
    ghost use Rattle.hoiskend.specs.Lending.{lends_session};

    /// Whether it has a session.
    pub(crate) fn is_open(&mut self) -> bool
        ensures { (result ≡ is_some self.old.session) × (self.new ≡ self.old) }
    {
        !self.at.is_null()
    }

    /// Puts a session into a block of memory.
    pub(crate) fn lay(&mut self, room: Vacant<Held, Global>, held: Held)
        requires { self.old.session ≡ None }
        ensures { self.new.session ≡ Some held }
    {
        let Vacant { ptr, alloc: _ } = room;
        unsafe {
            ptr.write(held);
        }
        self.at = ptr as *mut u8;
    }

    /// Takes the session out of its block.
    pub(crate) fn lift(&mut self, alloc: Global) -> (Held, Vacant<Held, Global>)
        requires { IsOpen self.old.session }
        ensures { (self.old.session ≡ Some result.0) × (self.new.session ≡ None) }
    {
        let ptr = self.at as *mut Held;
        let held = unsafe { ptr.read() };
        self.at = null_mut();
        (held, Vacant { ptr, alloc })
    }

    /// The session, to be read or changed.
    pub(crate) fn lend(&mut self) -> &mut Held
        requires { IsOpen self.old.session }
        ensures* writes { sem 𝓛 (lends_session self.entry result) }
        ensures value { self.old.session ≡ Some result.now }
    {
        unsafe { &mut *(self.at as *mut Held) }
    }
}
