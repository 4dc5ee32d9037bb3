//! The cells that C hands over, where they lie.

ghost use Rattle.std.specs.Prelude.{◌≡◌, ℕ, ◌^◌, ◌<◌, List, length};
ghost use Rattle.std.specs.Vec.{vec_ptr};
ghost use Rattle.std.specs.Coded.{coded_list, coded_ℕ};
ghost use Rattle.itm_c.specs.Cells.{cells_own};

use std::marker::Model;
use std_alloc::vec::{Lodged, lodge};

/// So many cells of 8 bytes, one after the other, which nothing else can reach while they are out as words.
#[repr(C)]
#[derive(Drop)]
pub struct Cells {
    pub(crate) at: *mut u64,
    pub(crate) count: usize,
    pub ghost items: { List ℕ } by { coded_list coded_ℕ },
    ghost counted: { count ≡ length items },
    ghost few: { count < 2 ^ 63 },
}

impl Model for Cells {
    ghost also_owns = { λ c. cells_own c.at c.count c.items };
}

impl Cells {
    /// The cells as a vector, where they lie.
    pub fn into_vec(self) -> Vec<u64, Lodged>
        ensures { (result.items ≡ self.items) × (vec_ptr result ≡ self.at) }
    {
        let Cells { at, count } = self;
        unsafe { lodge(at, count, count) }
    }

    /// The cells of a vector, where they lie.
    pub fn of_vec(mut vec: Vec<u64, Lodged>) -> Cells
        ensures { (result.items ≡ vec.items) × (result.at ≡ vec_ptr vec) }
    {
        let at = vec.as_mut_ptr();
        Cells::lying_at(at, vec)
    }

    fn lying_at(at: *mut u64, vec: Vec<u64, Lodged>) -> Cells
        requires { vec_ptr vec ≡ at }
        ensures { (result.items ≡ vec.items) × (result.at ≡ at) }
    {
        let count = vec.dislodge();
        Cells { at, count }
    }
}
