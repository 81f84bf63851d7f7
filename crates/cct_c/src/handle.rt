//! A box as its pointer, which a program in another language keeps. The one place that reads a raw
//! pointer.
ghost use Rattle.std.specs.Prelude.{◌≡◌};
ghost use Rattle.cct_c.specs.declared.kept.Kept.{Kept};
ghost use Rattle.cct_c.specs.contracts.kept.Kept as kept_row;

use crate::kept::Kept;
use std::alloc::Global;
use std::marker::Model;

/// What a program in another language sees of what a handle holds: nothing.
#[repr(C)]
#[derive(Drop)]
pub struct LhOpaque {
    none: u8,
}

/// A box, as its pointer.
#[repr(C)]
pub struct LhHandle {
    pub(crate) at: *mut LhOpaque,
    pub(crate) alloc: Global,
    pub(crate) ghost value: { Kept } by { kept_row.the_row.coded },
}

impl Model for LhHandle {
    ghost use Rattle.std_alloc.specs.Box.Ownership.{box_owns};
    ghost use Rattle.std_heap.specs.contracts.GlobalAllocator.TheImpl.{ghosts};
    ghost use Rattle.cct_c.specs.contracts.kept.Kept.{the_row};

    ghost also_owns = { λ l. box_owns (ghosts.dealloc_token l.alloc) the_row l.at l.value };
}

impl LhHandle {
    /// The box that a pointer is.
    pub(crate) fn into_box(self) -> Box<Kept, Global>
        ensures { result.value ≡ self.value }
    {
        let LhHandle { at, alloc } = self;
        unsafe { Box::from_raw(alloc, at as *mut Kept) }
    }
}
