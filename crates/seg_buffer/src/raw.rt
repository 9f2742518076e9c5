//! The raw steps on a block, the only code with raw pointers. Each is a few lines, and proved by hand.
//!
//! A block is a row of `room` places for one element each, from an allocator. Its address is a `Base`, which owns
//! nothing. `Places` is the right to use the memory, and `Deed` the right to give the block back. Both take no space
//! when the program runs. Neither can be dropped or copied, so code outside this module that loses one, or uses one
//! twice, does not compile. A step forgets the values that it no longer needs, so callers keep to types that are `Copy`.
ghost use Rattle.std.specs.Prelude.{◌≡◌, ℕ, ◌+◌, ◌<◌, ◌≤◌, List, [], ◌∷◌, ◌++◌, length, take, IfOk, ⊤};
ghost use Rattle.std.specs.Borrow.{sem};
ghost use Rattle.std.specs.Vec.Ownership.{FitsInBlock};
ghost use denote.RawPtr.{Ptr};
ghost use Rattle.seg_buffer.specs.Memory.{places_own, places_lent, deed_owns};

use std::alloc::{AllocError, Allocator};
use std::marker::{Model, PhantomData};
use std::mem::{align_of, size_of};
use std::slice;

/// The address of a block's first place. It owns nothing.
pub struct Base<T> {
    ptr: *mut T,
}

impl<T> Clone for Base<T> {
    ghost is_clone = { λ x y. y ≡ x };

    ghost is_infallible = { λ _. ⊤ };

    fn clone(&self) -> Result<Base<T>, AllocError> {
        Ok(*self)
    }
}

impl<T> Copy for Base<T> {}

/// The right to use the `room` places at `at`. The first of them hold `values`, and the others hold nothing.
pub struct Places<T> {
    mark: PhantomData<*const T>,
    ghost at: { Ptr },
    ghost room: { ℕ },
    ghost values: { List T },
}

impl<T> Model for Places<T> {
    ghost also_owns = { λ p. places_own T.row p.at p.room p.values };

    ghost also_shares = { λ p _ κ. places_lent T.row p.at p.room p.values κ };
}

/// The right to give the block of `room` places at `at` back to `alloc`. Where `room` is 0 there is no block.
pub struct Deed<T, A: Allocator> {
    mark: PhantomData<*const (T, A)>,
    ghost at: { Ptr },
    ghost room: { ℕ },
    ghost alloc: { A },
}

impl<T, A: Allocator> Model for Deed<T, A> {
    ghost also_owns = { λ d. deed_owns T.row (A.dealloc_token d.alloc) d.at d.room };
}

/// No block: the rights to no places, at an address that is never read.
pub(crate) fn no_block<T, A: Allocator>(_alloc: &A) -> (Base<T>, Places<T>, Deed<T, A>)
    ensures { (result.1.at ≡ result.0.ptr) × (result.1.room ≡ 0) × (result.1.values ≡ []) × (result.2.at ≡ result.0.ptr)
        × (result.2.room ≡ 0) × (result.2.alloc ≡ _alloc.now) }
{
    let nothing: [T; 0] = [];
    let base = Base {
        ptr: &raw const nothing as *mut T,
    };
    (
        base,
        Places { mark: PhantomData },
        Deed { mark: PhantomData },
    )
}

/// A block of `room` places that hold nothing.
pub(crate) fn allocate<T, A: Allocator>(
    alloc: &A,
    room: usize,
) -> Result<(Base<T>, Places<T>, Deed<T, A>), AllocError>
    requires { FitsInBlock T.row room × (0 < room) }
    ensures { IfOk result (λ r. (r.1.at ≡ r.0.ptr) × (r.1.room ≡ room) × (r.1.values ≡ []) × (r.2.at ≡ r.0.ptr) × (r.2.room ≡ room)
        × (r.2.alloc ≡ alloc.now)) }
{
    match alloc.allocate(room * size_of::<T>(), align_of::<T>()) {
        Ok(block) => {
            let base = Base {
                ptr: block as *mut T,
            };
            Ok((
                base,
                Places { mark: PhantomData },
                Deed { mark: PhantomData },
            ))
        }
        Err(error) => Err(error),
    }
}

/// Gives a block back, with the values in it.
pub(crate) fn deallocate<T, A: Allocator>(
    alloc: &A,
    base: Base<T>,
    room: usize,
    places: Places<T>,
    deed: Deed<T, A>,
)
    requires { (places.at ≡ base.ptr) × (places.room ≡ room) × (length places.values ≤ room) × (deed.at ≡ base.ptr) × (deed.room ≡ room)
        × (deed.alloc ≡ alloc.now) }
{
    let Places { mark: _ } = places;
    let Deed { mark: _ } = deed;
    if room != 0 {
        unsafe {
            alloc.deallocate(base.ptr as *mut u8, room * size_of::<T>(), align_of::<T>());
        }
    }
}

impl<T> Places<T> {
    /// Puts `value` in the place at `index`, which then is the last one that holds anything: what the others after
    /// it held is forgotten.
    pub(crate) fn write(&mut self, base: Base<T>, index: usize, value: T)
        requires { (base.ptr ≡ self.old.at) × (index < self.old.room) × (index ≤ length self.old.values)
            × (length self.old.values ≤ self.old.room) }
        ensures { (self.new.at ≡ self.old.at) × (self.new.room ≡ self.old.room)
            × (self.new.values ≡ take index self.old.values ++ value ∷ []) }
    {
        unsafe { base.ptr.add(index).write(value) }
    }

    /// The first `len` values.
    pub(crate) fn slice(&self, base: Base<T>, len: usize) -> &[T]
        requires { (base.ptr ≡ self.now.at) × (len ≤ length self.now.values) × (length self.now.values ≤ self.now.room) }
        ensures { result.now ≡ take len self.now.values }
    {
        unsafe { slice::from_raw_parts(base.ptr, len) }
    }
}

impl<T> Places<T> {
    ghost use Rattle.seg_buffer.specs.PlacesLend.{lends_first};

    /// The first `len` values, to be changed.
    pub(crate) fn slice_mut(&mut self, base: Base<T>, len: usize) -> &mut [T]
        requires { (base.ptr ≡ self.old.at) × (len ≤ length self.old.values) × (length self.old.values ≤ self.old.room) }
        ensures* writes_back { sem 𝓛 (lends_first T.row self.entry len result) }
        ensures value { result.now ≡ take len self.old.values }
    {
        unsafe { slice::from_raw_parts_mut(base.ptr, len) }
    }
}
