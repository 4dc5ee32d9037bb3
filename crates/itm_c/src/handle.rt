//! A box behind a pointer, as C keeps it: its type names no other type.

ghost use Rattle.std.specs.Prelude.{◌≡◌, Option, None, Some, IsSome};
ghost use Rattle.itm_c.specs.HandleOwns.{handle_owns, kept_code};
ghost use Rattle.itm_c.specs.declared.kept.Kept.{Kept};

use crate::kept::Kept;
use crate::parts::Parts;
use std::alloc::Global;
use std::marker::Model;
use std::mem::replace;

/// What C keeps between two calls, or nothing.
#[repr(C)]
#[derive(Drop)]
pub struct Handle {
    at: *mut u8,
    alloc: Global,
    pub ghost kept: { Option Kept } by { kept_code },
}

impl Model for Handle {
    ghost also_owns = { λ h. handle_owns h.alloc h.at h.kept };
}

impl Handle {
    /// The handle of what lies in this box.
    pub fn new(kept: Box<Kept>) -> Handle
        ensures { result.kept ≡ Some kept.value }
    {
        Handle::of_parts(Parts::of(kept))
    }

    /// A handle of nothing.
    pub fn empty(alloc: Global) -> Handle
        ensures { result.kept ≡ None }
    {
        Handle {
            at: std::ptr::null_mut(),
            alloc,
        }
    }

    fn of_parts(parts: Parts<Kept, Global>) -> Handle
        ensures { result.kept ≡ Some parts.value }
    {
        let Parts { ptr, alloc } = parts;
        Handle {
            at: ptr as *mut u8,
            alloc,
        }
    }

    fn into_parts(self) -> Parts<Kept, Global>
        requires { IsSome self.kept }
        ensures { self.kept ≡ Some result.value }
    {
        let Handle { at, alloc } = self;
        Parts {
            ptr: at as *mut Kept,
            alloc,
        }
    }

    /// The box.
    pub fn into_box(self) -> Box<Kept>
        requires { IsSome self.kept }
        ensures { self.kept ≡ Some result.value }
    {
        self.into_parts().into_box()
    }

    /// Takes the box out, and leaves nothing.
    pub fn take(&mut self, alloc: Global) -> Box<Kept>
        requires { IsSome self.old.kept }
        ensures taken { self.old.kept ≡ Some result.value }
        ensures empty { self.new.kept ≡ None }
    {
        replace(self, Handle::empty(alloc)).into_box()
    }

    /// Puts a box in, in the place of what C had there.
    pub fn put(&mut self, kept: Box<Kept>)
        ensures { self.new.kept ≡ Some kept.value }
    {
        *self = Handle::new(kept);
    }
}

unsafe impl Send for Handle {}

impl Handle {
    ghost use Rattle.std.specs.Borrow.{sem};
    ghost use Rattle.itm_c.specs.HandleLends.{handle_lends};

    /// What the handle holds.
    #[inline(always)]
    pub fn kept_mut(&mut self) -> &mut Kept
        requires { IsSome self.old.kept }
        ensures* writes_back { sem 𝓛 (handle_lends self.entry result) }
        ensures value { self.old.kept ≡ Some result.now }
    {
        unsafe { &mut *(self.at as *mut Kept) }
    }
}
