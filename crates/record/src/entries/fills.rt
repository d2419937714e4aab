// How a list of entries is made, read and filled.
ghost use Rattle.std.specs.Prelude.{◌≡◌, ◌<◌, ◌≤◌, [], ◌∷◌, ◌++◌, length, IfOk, vec_len, slice_index_or};
ghost use Rattle.std.specs.Borrow.{sem};
ghost use Rattle.record.specs.Filling.{Pushes, LendsEntry};

use super::Entries;
use crate::error::EntryError;
use std::alloc::{AllocError, Global};

impl<E: Drop> Entries<E> {
    // No entries. No other call allocates.
    pub fn new(heap: Global) -> Result<Entries<E>, AllocError>
        ensures { IfOk result (λ x. x.list.items ≡ []) }
    {
        Ok(Entries {
            list: Vec::with_capacity(heap, 128)?,
        })
    }

    pub fn clear(&mut self)
        ensures { self.new.list.items ≡ [] }
    {
        self.list.clear();
    }

    pub fn len(&self) -> usize
        ensures value { result ≡ length self.now.list.items }
        ensures bound { result ≤ 128 }
    {
        self.list.len()
    }

    pub fn as_slice(&self) -> &[E]
        ensures value { result.now ≡ self.now.list.items }
        ensures bound { length result.now ≤ 128 }
    {
        self.list.as_slice()
    }

    // Adds an entry at the end, if there are fewer than 128.
    pub fn push(&mut self, entry: E) -> Result<(), EntryError>
        ensures { Pushes result self.old.list.items entry self.new.list.items }
    {
        if self.list.len() >= 128 {
            return Err(EntryError::Full);
        }
        self.list.push_reserved(entry);
        Ok(())
    }

    // Lends the i-th entry.
    pub fn entry(&mut self, i: usize) -> &mut E
        requires { i < vec_len self.old.list }
        ensures* writes_back { sem 𝓛 (LendsEntry E.row self.entry i result) }
        ensures facts { result.now ≡ slice_index_or self.old.list.items i result.now }
    {
        &mut self.list[i]
    }
}

impl<E: Copy> Entries<E> {
    // Makes this list hold what `other` holds.
    pub fn copy_from(&mut self, other: &Entries<E>)
        ensures { self.new.list.items ≡ other.now.list.items }
    {
        self.clear();
        let _ = self.list.extend_from_slice(other.list.as_slice());
    }
}
