// What C holds of a connection.
ghost use Rattle.std.specs.Prelude.{◌≡◌, None, Option, Some};
ghost use Rattle.libsummarystore.specs.Kept.{IsFit};
ghost use Rattle.libsummarystore.specs.declared.kept.Kept.{Kept};
ghost use Rattle.libsummarystore.specs.contracts.kept.Kept.{the_row};
ghost use Rattle.std.specs.Coded.{coded_option};
ghost use Rattle.std.specs.Option.{MatchOption};

use crate::kept::Kept;
use crate::loose::Loose;
use std::alloc::Global;
use std::marker::Model;
use std::mem;
use std::ptr::null_mut;

/// A box as C holds it: its pointer, which C hands back and never follows, or null where there is none.
#[repr(C)]
pub struct Handle {
    at: *mut u8,
    alloc: Global,
    ghost held: { Option Kept } by { coded_option the_row.coded },
}

impl Model for Handle {
    ghost use Rattle.libsummarystore.specs.Owned.{owned};

    ghost also_owns = { λ h. owned h.alloc h.at h.held };
}

impl Handle {
    /// Holds no box.
    pub fn none(alloc: Global) -> Handle
        ensures { result.held ≡ None }
    {
        Handle {
            at: null_mut(),
            alloc,
        }
    }

    fn of_loose(loose: Loose<Kept, Global>) -> Handle
        requires { IsFit loose.value }
        ensures { result.held ≡ Some loose.value }
    {
        let Loose { at, alloc } = loose;
        Handle {
            at: at as *mut u8,
            alloc,
        }
    }

    fn into_loose(self) -> Option<Loose<Kept, Global>>
        ensures { MatchOption result (self.held ≡ None) (λ loose. (self.held ≡ Some loose.value) × IsFit loose.value) }
    {
        let Handle { at, alloc } = self;
        if at.is_null() {
            None
        } else {
            Some(Loose {
                at: at as *mut Kept,
                alloc,
            })
        }
    }

    /// Holds a box.
    pub fn of(held: Box<Kept>) -> Handle
        requires { IsFit held.value }
        ensures { result.held ≡ Some held.value }
    {
        Handle::of_loose(Loose::of(held))
    }

    /// The box, where there is one.
    pub fn into_box(self) -> Option<Box<Kept>>
        ensures { MatchOption result (self.held ≡ None) (λ held. (self.held ≡ Some held.value) × IsFit held.value) }
    {
        match self.into_loose() {
            None => None,
            Some(loose) => Some(loose.into_box()),
        }
    }

    /// Takes the box out, where there is one, and leaves none.
    pub fn take(&mut self, alloc: Global) -> Option<Box<Kept>>
        ensures taken { MatchOption result (self.old.held ≡ None) (λ held. (self.old.held ≡ Some held.value) × IsFit held.value) }
        ensures left { self.new.held ≡ None }
    {
        mem::replace(self, Handle::none(alloc)).into_box()
    }
}

impl Drop for Handle {
    fn drop(self) {
        if let Some(held) = self.into_box() {
            drop(held);
        }
    }
}
