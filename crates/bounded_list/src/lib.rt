// A list of at most CAP items that lie in the value itself, so that a copy of the value is a list too. It has the calls
// of the kit's `ArrayVec` that are used here, by their names; that type is not `Copy`. A full list takes no item more,
// where that type asks its caller that there is room. Rests on specs/BoundedList.antt.
#![tactic(auto)]

ghost use Rattle.std.specs.Prelude.{⊤, ◌≡◌, ◌<◌, ◌≤◌, ◌==◌, ◌^◌, [], ◌∷◌, ◌++◌, length, take, insert};
ghost use Rattle.std.specs.Cmp.{on_per};
ghost use Rattle.std.specs.Cmp.Lexicographic.{pointwise, lists_per};
ghost use Rattle.std.specs.Iterator.Runs.{EveryRun, ItemsMapTo};
ghost use Rattle.std.specs.Slice.Iter.{iter_rest, iter_steps};

use std::alloc::AllocError;
use std::marker::Model;
use std::ops::DerefSlice;
use std::{fmt, slice};

pub struct BoundedList<T: Copy, const CAP: usize> {
    places: [T; CAP],
    len: usize,
}

// What is free is part of the value, since a copy has it; no call tells anything of it.
impl<T: Copy, const CAP: usize> Model for BoundedList<T, CAP> {
    ghost use Rattle.std.specs.Prelude.{◌≡◌, ◌≤◌, ◌++◌, length, take, drop};
    ghost use Rattle.std.proofs.Common.{arith, take-append-drop, length-take-le};
    ghost use Rattle.bounded_list.specs.BoundedList.{BoundedList as Listed};

    ghost Value = { Listed T };

    ghost view = { λ v. record { items = take v.len v.places; spare = drop v.len v.places } };

    ghost invariant = { λ v. (v.len ≤ CAP) × (length v.places ≡ CAP) };

    ghost inverse = { λ s. record { places = s.items ++ s.spare; len = length s.items } };

    ghost inverse_ok = { λ s h i. record {
      places = take-append-drop s.len s.places i;
      len = length-take-le s.len s.places (omega (arith, h.0, h.1)) i;
    } };
}

impl<T: Copy, const CAP: usize> Copy for BoundedList<T, CAP> {}

// Not derived: that would clone the items one by one.
impl<T: Copy, const CAP: usize> Clone for BoundedList<T, CAP> {
    ghost is_clone = { λ v w. w ≡ v };

    ghost is_infallible = { λ _. ⊤ };

    fn clone(&self) -> Result<Self, AllocError> {
        Ok(*self)
    }
}

impl<T: Copy + Default, const CAP: usize> BoundedList<T, CAP> {
    // A list with no item.
    pub fn new() -> Self
        ensures { result.items ≡ [] }
    {
        Self {
            places: [T::default(); CAP],
            len: 0,
        }
    }
}

impl<T: Copy, const CAP: usize> BoundedList<T, CAP> {
    // How many items there are.
    #[inline]
    pub fn len(&self) -> usize
        ensures value { result ≡ length self.now.items }
        ensures fits { result ≤ CAP }
    {
        self.as_slice().len()
    }

    // Whether there is none.
    #[inline]
    pub fn is_empty(&self) -> bool
        ensures { result ≡ (length self.now.items == 0) }
    {
        self.len == 0
    }

    // How many items there can be.
    #[inline]
    pub fn capacity(&self) -> usize
        ensures { result ≡ CAP }
    {
        CAP
    }

    // The items.
    #[inline]
    pub fn as_slice(&self) -> &[T]
        ensures value { result.now ≡ self.now.items }
        ensures fits { length result.now ≤ CAP }
    {
        &self.places[..self.len]
    }

    // An item put at the end; a full list stays as it is.
    #[inline]
    pub fn push(&mut self, x: T)
        ensures items { length self.old.items < CAP → self.new.items ≡ self.old.items ++ x ∷ [] }
        ensures full { CAP ≤ length self.old.items → self.new ≡ self.old }
    {
        if self.len < CAP {
            self.places[self.len] = x;
            self.len += 1;
        }
    }

    // An item put in front of the one at `at`, or at the end where there are no more than `at`; a full list stays as it
    // is.
    pub fn insert(&mut self, at: usize, x: T)
        ensures items { length self.old.items < CAP → self.new.items ≡ insert self.old.items at x }
        ensures full { CAP ≤ length self.old.items → self.new ≡ self.old }
    {
        let len = self.len;
        if len < CAP {
            let first = at.min(len);
            let places = &mut self.places[..];
            let last = carry_in(&mut places[first..len], x);
            self.places[len] = last;
            self.len = len + 1;
        }
    }

    // The first n items kept, or all where there are no more.
    pub fn truncate(&mut self, n: usize)
        ensures { self.new.items ≡ take n self.old.items }
    {
        self.len = self.len.min(n);
    }
}

// x put in front of these items: each moves up by one place, and the last one is handed back. One by one, since a move
// of all at once is C's memmove, which the archive for C does not ask for.
pub fn carry_in<T: Copy>(part: &mut [T], x: T) -> T
    ensures { part.new ++ result ∷ [] ≡ x ∷ part.old }
{
    let mut carry = x;
    for i in 0..part.len() {
        let next = part[i];
        part[i] = carry;
        carry = next;
    }
    carry
}

impl<T: Copy, const CAP: usize> DerefSlice for BoundedList<T, CAP> {
    type Elem = T;

    ghost deref_gives = { λ v xs. (xs ≡ v.items) × (length xs ≤ CAP) };

    #[inline]
    fn deref(&self) -> &[T] {
        self.as_slice()
    }
}

// A full list.
impl<T: Copy, const CAP: usize> From<[T; CAP]> for BoundedList<T, CAP> {
    ghost from_gives = { λ all v. (v.items ≡ all) × (length v.items ≡ CAP) };

    fn from(all: [T; CAP]) -> Self {
        Self {
            places: all,
            len: CAP,
        }
    }
}

impl<T: Copy + Default, const CAP: usize> Default for BoundedList<T, CAP> {
    ghost is_default = { λ v. v.items ≡ [] };

    fn default() -> Self {
        Self::new()
    }
}

impl<'a, T: Copy, const CAP: usize> IntoIterator for &'a BoundedList<T, CAP> {
    type Item = &'a T;

    type IntoIter = slice::Iter<'a, T>;

    ghost into_iter_gives = { λ v it. (iter_rest it ≡ v.now.items) × (length (iter_rest it) < 2 ^ 64)
        × EveryRun (iter_steps {A = T}) (λ p. ItemsMapTo p (λ x. x.now) (iter_rest p.from)) };

    fn into_iter(self) -> slice::Iter<'a, T> {
        self.as_slice().iter()
    }
}

// Items alone: what is free is compared by nobody.
impl<T: Copy + PartialEq, const CAP: usize> PartialEq for BoundedList<T, CAP> {
    ghost eq = { λ v w. pointwise T.eq v.items w.items };

    ghost laws = { on_per (λ v. v.items) (lists_per T.laws) };

    fn eq(&self, other: &Self) -> bool {
        self.as_slice() == other.as_slice()
    }
}

impl<T: Copy + fmt::Debug, const CAP: usize> fmt::Debug for BoundedList<T, CAP> {
    fn fmt<W: fmt::Write>(&self, f: &mut fmt::Formatter<W>) -> fmt::Result {
        f.debug_list().entries(self.as_slice()).finish()
    }
}
