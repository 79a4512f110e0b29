//! The blocks of memory of the lodged rooms: a value is put into one, taken out, read and lent. In no other file of the
//! core, and of the programs, is a raw pointer followed; the library's handle has its own (`hoiskend/src/handle.rt`).
ghost use Rattle.std.specs.Prelude.{◌≡◌, ◌<◌, None, Some};
ghost use Rattle.std.specs.Ordering.{nat_cmp};
ghost use Rattle.std.specs.FinMap.{FinMap, code, empty, get, insert, remove, entries};
ghost use Rattle.std.specs.Coded.{coded×, coded_ℕ};
ghost use Rattle.std.specs.Borrow.{sem};
ghost use Rattle.core.specs.Mem.{type_size};
ghost use denote.RawPtr.{Ptr, coded_ptr};
ghost use Rattle.radix_nodes.specs.Owning.{all_own, all_lent};
ghost use Rattle.radix_nodes.specs.At.{IsAt, IsStart, AreStarts};
ghost use Rattle.radix_nodes.specs.Naming.{number_at, number_of};

use crate::id::Id;
use std::alloc::Global;
use std::marker::{Model, PhantomData};
use std_alloc::room::Vacant;

/// The blocks that hold a value each, by the numbers of their rooms. It has no bytes: whoever reads or writes a block
/// has its room's name. It can't be dropped: `end` lets it go once all blocks are taken out.
pub(crate) struct Blocks<T> {
    mark: PhantomData<*mut T>,
    ghost cells: { FinMap nat_cmp (Ptr × T) } by { code coded_ℕ (coded× coded_ptr T.code) },
}

impl<T> Model for Blocks<T> {
    ghost also_owns = { λ b. all_own T.row (entries b.cells) };

    ghost also_shares = { λ b _ κ. all_lent T.row (entries b.cells) κ };
}

impl<T> Blocks<T> {
    ghost use Rattle.radix_nodes.specs.Lending.{lends_block};

    /// No block.
    pub(crate) fn new() -> Blocks<T>
        ensures { result.cells ≡ empty }
    {
        Blocks { mark: PhantomData }
    }

    /// Lets go of no block.
    pub(crate) fn end(self)
        requires { self.cells ≡ empty }
    {
        let Blocks { mark: _ } = self;
    }

    /// The same empty block, which is none of those that are held: what is in one place has one owner. It does nothing.
    pub(crate) fn apart(&mut self, room: Vacant<T, Global>) -> Vacant<T, Global>
        requires { AreStarts self.old.cells × (0 < type_size T.row) }
        ensures { (result ≡ room) × IsStart room.ptr × (get self.old.cells (number_at room.ptr) ≡ None)
            × (self.new ≡ self.old) }
    {
        room
    }

    /// Writes a value into an empty block, which is held from now on under the number of its place.
    pub(crate) fn put(&mut self, room: Vacant<T, Global>, value: T) -> Id
        ensures { (result ≡ record { block = room.ptr })
            × (self.new.cells ≡ insert self.old.cells (number_of result) (result.block, value)) }
    {
        let Vacant { ptr, alloc: _ } = room;
        unsafe {
            ptr.write(value);
        }
        Id {
            block: ptr as *mut u8,
        }
    }

    /// Moves the value out of a block, which is empty and no longer held from now on.
    pub(crate) fn take(&mut self, id: Id, alloc: Global) -> (T, Vacant<T, Global>)
        requires { IsAt self.old.cells (number_of id) id.block }
        ensures { (get self.old.cells (number_of id) ≡ Some (id.block, result.0)) × (result.1.ptr ≡ id.block)
            × (self.new.cells ≡ remove self.old.cells (number_of id)) }
    {
        let ptr = id.block as *mut T;
        let value = unsafe { ptr.read() };
        (value, Vacant { ptr, alloc })
    }

    /// The value in a block.
    pub(crate) fn get(&self, id: Id) -> &T
        requires { IsAt self.now.cells (number_of id) id.block }
        ensures { get self.now.cells (number_of id) ≡ Some (id.block, result.now) }
    {
        unsafe { &*(id.block as *mut T) }
    }

    /// The value in a block, to be changed.
    pub(crate) fn get_mut(&mut self, id: Id) -> &mut T
        requires { IsAt self.old.cells (number_of id) id.block }
        ensures* writes { sem 𝓛 (lends_block T.row self.entry (number_of id) id.block result) }
        ensures value { get self.old.cells (number_of id) ≡ Some (id.block, result.now) }
    {
        unsafe { &mut *(id.block as *mut T) }
    }
}
