ghost use Rattle.std.specs.Prelude.{◌≡◌, ◌==◌, ◌+◌, ◌<◌, ◌≤◌, [], ◌∷◌, ◌++◌, length, replicate, slice_get, slice_set};
ghost use Rattle.std.specs.Prelude.{OnOk, OnErr, IfOk};
ghost use Rattle.std.specs.List.{AllZip};
ghost use Rattle.std.specs.Option.{option_copied};

use std::alloc::{AllocError, Global};
use std::marker::Model;
use thiserror::Error;

/// Memory ran out. It is the only answer that no contract ties to a cause.
#[derive(Clone, Copy, Debug, PartialEq, Eq, Error)]
#[error("no memory")]
pub struct NoMemory;

/// A growing list, with the calls of a vector.
///
/// Contracts see its items and its spare room, the number of pushes that cannot fail.
#[derive(Drop)]
pub struct Seq<T> {
    vec: Vec<T>,
}

/// The bytes of a name.
pub type Name = Seq<u8>;

impl<T> Model for Seq<T> {
    ghost use Rattle.std.specs.Prelude.{◌-◌, vec_capacity, vec_len};
    ghost use Rattle.ec_space.specs.Listed.{Listed, listed_code};

    ghost Value = { Listed T };

    ghost coded = { listed_code T.code };

    ghost view = { λ a. record { items = a.vec.items; spare = vec_capacity a.vec - vec_len a.vec } };
}

impl<T: Clone> Clone for Seq<T> {
    ghost is_clone = { λ v w. AllZip T.is_clone v.items w.items };

    fn clone(&self) -> Result<Seq<T>, AllocError> {
        Ok(Seq {
            vec: self.vec.clone()?,
        })
    }
}

impl<T> Seq<T> {
    /// The empty list, which keeps the allocator.
    pub fn new(alloc: Global) -> Seq<T>
        ensures { result.items ≡ [] }
    {
        Seq {
            vec: Vec::new(alloc),
        }
    }

    /// The number of items.
    pub fn len(&self) -> usize
        ensures { result ≡ length self.now.items }
    {
        self.vec.len()
    }

    /// Whether there is no item.
    pub fn is_empty(&self) -> bool
        ensures { result ≡ (length self.now.items == 0) }
    {
        self.vec.is_empty()
    }

    /// The items.
    pub fn as_slice(&self) -> &[T]
        ensures { result.now ≡ self.now.items }
    {
        self.vec.as_slice()
    }

    /// The item at `i`, or None where `i` is not below the length.
    pub fn get(&self, i: usize) -> Option<&T>
        ensures { option_copied result ≡ slice_get self.now.items i }
    {
        self.vec.get(i)
    }

    /// Makes room for `n` more items. The items stay, whatever it answers. It is refused only where the room was not
    /// spare already.
    pub fn reserve(&mut self, n: usize) -> Result<(), NoMemory>
        ensures items { self.new.items ≡ self.old.items }
        ensures spare { OnOk result (n ≤ self.new.spare) }
        ensures kept { self.old.spare ≤ self.new.spare }
        ensures refused { OnErr result (self.old.spare < n) }
    {
        match self.vec.reserve(n) {
            Ok(()) => Ok(()),
            Err(_) => Err(NoMemory),
        }
    }
}

/// Appends `x` to a vector. Where there is no memory the items stay, and `x` is dropped.
pub fn push<T: Drop>(items: &mut Vec<T>, x: T) -> Result<(), NoMemory>
    ensures ok { OnOk result (items.new.items ≡ items.old.items ++ x ∷ []) }
    ensures err { OnErr result (items.new.items ≡ items.old.items) }
{
    match items.push(x) {
        Ok(()) => Ok(()),
        Err(_) => Err(NoMemory),
    }
}

impl<T: Drop> Seq<T> {
    /// Appends `x`. It is refused only where no room is spare, and then drops `x`.
    pub fn push(&mut self, x: T) -> Result<(), NoMemory>
        ensures ok { OnOk result (self.new.items ≡ self.old.items ++ x ∷ []) }
        ensures err { OnErr result (self.new.items ≡ self.old.items) }
        ensures spare { self.old.spare ≤ self.new.spare + 1 }
        ensures refused { OnErr result (self.old.spare ≡ 0) }
    {
        match self.vec.push(x) {
            Ok(()) => Ok(()),
            Err(_) => Err(NoMemory),
        }
    }

    /// Drops all items, and keeps the room.
    pub fn clear(&mut self)
        ensures items { self.new.items ≡ [] }
        ensures spare { self.old.spare ≤ self.new.spare }
    {
        self.vec.clear();
    }

    /// Replaces the item at `i`.
    pub fn put(&mut self, i: usize, x: T)
        requires { i < length self.old.items }
        ensures items { self.new.items ≡ slice_set self.old.items i x }
        ensures spare { self.new.spare ≡ self.old.spare }
    {
        self.vec[i] = x;
    }
}

impl<T: Copy> Seq<T> {
    /// A list of `n` items `x`.
    pub fn filled(alloc: Global, n: usize, x: T) -> Result<Seq<T>, NoMemory>
        ensures { IfOk result (λ seq. seq.items ≡ replicate n x) }
    {
        let mut seq = Seq::new(alloc);
        seq.reserve(n)?;
        for _i in 0..n {
            seq.push(x)?;
        }
        Ok(seq)
    }

    /// Appends a copy of each of the items. It is refused only where they pass the spare room, and then appends none.
    pub fn extend_from_slice(&mut self, xs: &[T]) -> Result<(), NoMemory>
        ensures ok { OnOk result (self.new.items ≡ self.old.items ++ xs.now) }
        ensures err { OnErr result (self.new.items ≡ self.old.items) }
        ensures spare { self.old.spare ≤ self.new.spare + length xs.now }
        ensures refused { OnErr result (self.old.spare < length xs.now) }
    {
        match self.vec.extend_from_slice(xs) {
            Ok(()) => Ok(()),
            Err(_) => Err(NoMemory),
        }
    }
}
