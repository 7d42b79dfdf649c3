ghost use Rattle.std.specs.Prelude.{◌≡◌, ◌+◌, ◌-◌, ◌<◌, ◌≤◌, ◌↔◌, [], ◌∷◌, ◌++◌, length, take, is_some, nat_lt, slice_index_or, slice_set, IsOk, OnOk, OnErr};
ghost use Rattle.std.specs.List.{insert};
ghost use Rattle.std.specs.Option.{option_to_list as item_of};
ghost use Rattle.bounded.specs.Lists.{list_of};

use super::{Bounded, Full};
use std::alloc::AllocError;

// By hand, since `Clone` cannot be derived for a generic struct with ghost fields.
impl<T: Copy, const N: usize> Clone for Bounded<T, N> {
    ghost is_clone = { λ x y. y ≡ x };

    ghost is_infallible = { λ _. Unit {0} };

    fn clone(&self) -> Result<Bounded<T, N>, AllocError> {
        Ok(*self)
    }
}

// The empty list.
impl<T: Copy + Default, const N: usize> Default for Bounded<T, N> {
    ghost is_default = { λ b. list_of b ≡ [] };

    fn default() -> Bounded<T, N> {
        Bounded::new(T::default())
    }
}

impl<T: Copy, const N: usize> Bounded<T, N> {
    pub fn new(fill: T) -> Self
        ensures { list_of result ≡ [] }
    {
        Bounded {
            items: [fill; N],
            len: 0,
        }
    }

    pub fn len(&self) -> usize
        ensures value { result ≡ length (list_of self.now) }
        ensures bound { result ≤ N }
    {
        self.as_slice().len()
    }

    pub fn as_slice(&self) -> &[T]
        ensures value { result.now ≡ list_of self.now }
        ensures bound { length result.now ≤ N }
    {
        &self.items[..self.len]
    }

    pub fn at(&self, index: usize) -> T
        requires { index < length (list_of self.now) }
        ensures { (d : T) → result ≡ slice_index_or (list_of self.now) index d }
    {
        self.items[index]
    }

    pub fn push(&mut self, x: T) -> Result<(), Full>
        ensures variant { IsOk result ↔ (length (list_of self.old) < N) }
        ensures ok { OnOk result (list_of self.new ≡ list_of self.old ++ x ∷ []) }
        ensures err { OnErr result (self.new ≡ self.old) }
    {
        if self.len >= N {
            return Err(Full);
        }
        self.items[self.len] = x;
        self.len += 1;
        Ok(())
    }

    // All of `more` at the end, or nothing where there is no room for all.
    pub fn extend_from_slice(&mut self, more: &[T]) -> Result<(), Full>
        ensures variant { IsOk result ↔ (length (list_of self.old) + length more.now ≤ N) }
        ensures ok { OnOk result (list_of self.new ≡ list_of self.old ++ more.now) }
        ensures err { OnErr result (self.new ≡ self.old) }
    {
        if more.len() > N - self.len {
            return Err(Full);
        }
        let end = self.len + more.len();
        let items = &mut self.items[..];
        items[self.len..end].copy_from_slice(more);
        self.len = end;
        Ok(())
    }

    pub fn insert(&mut self, at: usize, x: T) -> Result<(), Full>
        requires { at ≤ length (list_of self.old) }
        ensures variant { IsOk result ↔ (length (list_of self.old) < N) }
        ensures ok { OnOk result (list_of self.new ≡ insert (list_of self.old) at x) }
        ensures err { OnErr result (self.new ≡ self.old) }
    {
        if self.len >= N {
            return Err(Full);
        }
        self.items.copy_within(at..self.len, at + 1);
        self.items[at] = x;
        self.len += 1;
        Ok(())
    }

    pub fn set(&mut self, place: usize, x: T)
        requires { place < length (list_of self.old) }
        ensures { list_of self.new ≡ slice_set (list_of self.old) place x }
    {
        self.items[place] = x;
    }

    pub fn truncate(&mut self, len: usize)
        ensures { list_of self.new ≡ take len (list_of self.old) }
    {
        self.len = self.len.min(len);
    }

    pub fn clear(&mut self)
        ensures { list_of self.new ≡ [] }
    {
        self.len = 0;
    }

    pub fn pop(&mut self) -> Option<T>
        ensures items { list_of self.old ≡ list_of self.new ++ item_of result }
        ensures test { is_some result ≡ nat_lt 0 (length (list_of self.old)) }
    {
        self.len = self.len.checked_sub(1)?;
        Some(self.items[self.len])
    }
}
