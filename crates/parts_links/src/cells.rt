//! The block: a row of cells, each room or a value, and places that point into it.
//!
//! These five calls alone touch memory, and each has a proof by hand; everything above them is safe code. They, `specs/Ownership.antt`,
//! `specs/Places.antt` and their proofs are adapted from the toolchain's port of the crate `circular-buffer`, whose notice stands in
//! `LICENSE-circular-buffer`.
ghost use Rattle.std.specs.Prelude.{◌≡◌, ℕ, ◌<◌, List, Option, Some, None, length, replicate, get_or, slice_set, IfOk, ⊤};
ghost use Rattle.std.specs.Vec.Ownership.{FitsInBlock};
ghost use base.Fml.{ftrue};
ghost use denote.RawPtr.{Ptr};
ghost use Rattle.parts_links.specs.Places.{IsFilled, IsPlace, HasBytes, index_at};
ghost use Rattle.parts_links.specs.Ownership.{cells_own, cells_lent, deed_owns};

use std::alloc::{AllocError, Allocator};
use std::marker::{Model, PhantomData};
use std::mem::{align_of, size_of};

/// Where a cell lies. It owns nothing.
pub struct Place<T> {
    ptr: *mut T,
}

impl<T> Clone for Place<T> {
    ghost is_clone = { λ x y. y ≡ x };

    ghost is_infallible = { λ _. ⊤ };

    fn clone(&self) -> Result<Place<T>, AllocError> {
        Ok(*self)
    }
}

impl<T> Copy for Place<T> {}

impl<T> Place<T> {
    pub(crate) fn at(ptr: *mut T) -> Place<T>
        ensures { result.ptr ≡ ptr }
    {
        Place { ptr }
    }

    pub(crate) fn pointer(self) -> *mut T
        ensures { result ≡ self.ptr }
    {
        self.ptr
    }
}

/// The owner of the cells. It takes no space: its holder keeps the place of the first.
pub struct Cells<T> {
    mark: PhantomData<*const T>,
    ghost at: { Ptr },
    ghost slots: { List (Option T) },
}

impl<T> Model for Cells<T> {
    ghost also_owns = { λ c. cells_own T.row c.at c.slots };

    ghost also_shares = { λ c _ κ. cells_lent T.row c.at c.slots κ };
}

/// The right to give the block of `len` cells at `at` back to `alloc`. It takes no space.
pub struct Deed<T, A: Allocator> {
    mark: PhantomData<*const (T, A)>,
    ghost at: { Ptr },
    ghost len: { ℕ },
    ghost alloc: { A },
}

impl<T, A: Allocator> Model for Deed<T, A> {
    ghost also_owns = { λ d. deed_owns T.row (A.dealloc_token d.alloc) d.at d.len };

    ghost also_shares = { λ _ _ _. ftrue };
}

pub(crate) fn allocate<T, A: Allocator>(
    alloc: &A,
    len: usize,
) -> Result<(Place<T>, Cells<T>, Deed<T, A>), AllocError>
    requires { FitsInBlock T.row len }
    ensures { IfOk result (λ r. (r.1.at ≡ r.0.ptr) × (r.1.slots ≡ replicate len None) × (r.2.at ≡ r.0.ptr) × (r.2.len ≡ len) × (r.2.alloc ≡ alloc.now)) }
{
    match alloc.allocate(len * size_of::<T>(), align_of::<T>()) {
        Ok(block) => {
            let base = Place {
                ptr: block as *mut T,
            };
            Ok((
                base,
                Cells { mark: PhantomData },
                Deed { mark: PhantomData },
            ))
        }
        Err(error) => Err(error),
    }
}

/// What the cells held is forgotten.
pub(crate) fn deallocate<T, A: Allocator>(
    alloc: &A,
    base: Place<T>,
    len: usize,
    cells: Cells<T>,
    deed: Deed<T, A>,
)
    requires { (cells.at ≡ base.ptr) × (length cells.slots ≡ len) × (deed.at ≡ base.ptr) × (deed.len ≡ len) × (deed.alloc ≡ alloc.now) }
{
    let Cells { mark: _ } = cells;
    let Deed { mark: _ } = deed;
    unsafe {
        alloc.deallocate(base.ptr as *mut u8, len * size_of::<T>(), align_of::<T>());
    }
}

impl<T> Cells<T> {
    /// The place of a cell, from the place of the first.
    pub(crate) fn place(&self, base: Place<T>, index: usize) -> Place<T>
        requires { (base.ptr ≡ self.now.at) × (index < length self.now.slots) × HasBytes T.row }
        ensures place { IsPlace T.row self.now.at result.ptr }
        ensures index { index_at T.row self.now.at result.ptr ≡ index }
    {
        let ptr = unsafe { base.ptr.add(index) };
        Place { ptr }
    }

    pub(crate) fn get(&self, place: Place<T>) -> &T
        requires { IsPlace T.row self.now.at place.ptr × IsFilled self.now.slots (index_at T.row self.now.at place.ptr) }
        ensures { get_or self.now.slots (index_at T.row self.now.at place.ptr) None ≡ Some result.now }
    {
        let Place { ptr } = place;
        unsafe { &*ptr }
    }

    /// What the cell held is forgotten.
    pub(crate) fn put(&mut self, place: Place<T>, item: T)
        requires { IsPlace T.row self.old.at place.ptr × (index_at T.row self.old.at place.ptr < length self.old.slots) }
        ensures { (self.new.at ≡ self.old.at) × (self.new.slots ≡ slice_set self.old.slots (index_at T.row self.old.at place.ptr) (Some item)) }
    {
        let Place { ptr } = place;
        unsafe { ptr.write(item) }
    }
}
