//! Raw memory: a row of places, each empty or holding a value. The four functions here that use
//! pointers, `allocate`, `deallocate`, `put` and `slice`, are proved by hand.

ghost use Rattle.std.specs.Prelude.{◌≡◌, ℕ, ◌<◌, List, Option, Some, None, map, length, take, drop};
ghost use Rattle.std.specs.Prelude.{replicate, slice_set, IfOk, ⊤};
ghost use Rattle.std.specs.Vec.Ownership.{FitsInBlock};
ghost use base.Fml.{ftrue};
ghost use denote.RawPtr.{Ptr};
ghost use Rattle.peg_pool.specs.Places.{IsRun};
ghost use Rattle.peg_pool.specs.Ownership.{cells_own, cells_lent, deed_owns};

use std::alloc::{AllocError, Allocator};
use std::marker::{Model, PhantomData};
use std::mem::{align_of, size_of};
use std::slice;

/// Where the memory begins. It owns nothing.
pub(crate) struct Base<T> {
    ptr: *mut T,
}

impl<T> Clone for Base<T> {
    ghost is_clone = { λ x y. y ≡ x };

    ghost is_infallible = { λ _. ⊤ };

    fn clone(&self) -> Result<Base<T>, AllocError> {
        Ok(*self)
    }
}

impl<T> Copy for Base<T> {}

/// The owner of the places. It takes no space.
pub(crate) struct Cells<T> {
    mark: PhantomData<*const T>,
    ghost at: { Ptr },
    ghost places: { List (Option T) },
}

impl<T> Model for Cells<T> {
    ghost also_owns = { λ c. cells_own T.row c.at c.places };

    ghost also_shares = { λ c _ κ. cells_lent T.row c.at c.places κ };
}

/// The right to give the memory back to its allocator. It takes no space.
pub(crate) struct Deed<T, A: Allocator> {
    mark: PhantomData<*const (T, A)>,
    ghost at: { Ptr },
    ghost len: { ℕ },
    ghost alloc: { A },
}

impl<T, A: Allocator> Model for Deed<T, A> {
    ghost also_owns = { λ d. deed_owns T.row (A.dealloc_token d.alloc) d.at d.len };

    ghost also_shares = { λ _ _ _. ftrue };
}

/// Memory for so many places, all of them empty.
pub(crate) fn allocate<T, A: Allocator>(
    alloc: &A,
    len: usize,
) -> Result<(Base<T>, Cells<T>, Deed<T, A>), AllocError>
    requires { FitsInBlock T.row len }
    ensures { IfOk result (λ r. (r.1.at ≡ r.0.ptr)
        × (r.1.places ≡ replicate len None)
        × (r.2.at ≡ r.0.ptr)
        × (r.2.len ≡ len)
        × (r.2.alloc ≡ alloc.now)) }
{
    match alloc.allocate(len * size_of::<T>(), align_of::<T>()) {
        Ok(block) => {
            let base = Base {
                ptr: block as *mut T,
            };
            Ok((
                base,
                Cells { mark: PhantomData },
                Deed { mark: PhantomData },
            ))
        }
        Err(error) => Err(error),
    }
}

/// Gives the memory back. The values in it are forgotten.
pub(crate) fn deallocate<T, A: Allocator>(
    alloc: &A,
    base: Base<T>,
    len: usize,
    cells: Cells<T>,
    deed: Deed<T, A>,
)
    requires { (cells.at ≡ base.ptr)
        × (length cells.places ≡ len)
        × (deed.at ≡ base.ptr)
        × (deed.len ≡ len)
        × (deed.alloc ≡ alloc.now) }
{
    let Cells { mark: _ } = cells;
    let Deed { mark: _ } = deed;
    unsafe {
        alloc.deallocate(base.ptr as *mut u8, len * size_of::<T>(), align_of::<T>());
    }
}

impl<T> Cells<T> {
    /// Puts a value in a place. One that it held is forgotten.
    pub(crate) fn put(&mut self, base: Base<T>, index: usize, item: T)
        requires { (base.ptr ≡ self.old.at) × (index < length self.old.places) }
        ensures { (self.new.at ≡ self.old.at)
            × (self.new.places ≡ slice_set self.old.places index (Some item)) }
    {
        unsafe { base.ptr.add(index).write(item) }
    }

    /// The `len` values from a place on.
    pub(crate) fn slice(&self, base: Base<T>, from: usize, len: usize) -> &[T]
        requires { (base.ptr ≡ self.now.at) × IsRun self.now.places from len }
        ensures { take len (drop from self.now.places) ≡ map Some result.now }
    {
        unsafe { slice::from_raw_parts(base.ptr.add(from), len) }
    }
}
