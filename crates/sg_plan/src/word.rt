//! A text that contracts see as the list of its bytes.
ghost use Rattle.std.specs.Prelude.{◌≡◌, ◌+◌, [], ◌∷◌, ◌++◌, ◌<◌, ◌≤◌, length, take, drop, slice_get, slice_set, insert, remove, Some, IsTrue, ◌↔◌, IfOk, OnOk, OnErr};

use crate::memory::NoMemory;
use std::alloc::Global;
use std::marker::Model;
use std::mem;

/// A text that contracts see as the list of its bytes.
///
/// It keeps its allocator. Only `push`, `insert`, `extend`, `with_room` and `copy` take memory.
#[derive(Debug, Drop)]
pub struct Word {
    bytes: Vec<u8>,
}

impl Model for Word {
    ghost use Rattle.std.specs.Prelude.{List, ℕ};
    ghost use Rattle.std.specs.Coded.{coded_list};

    ghost Value = { List ℕ };

    ghost view = { λ it. it.bytes.items };
}

impl Word {
    /// The empty text. It takes no memory.
    pub fn new(alloc: Global) -> Word
        ensures { result ≡ [] }
    {
        Word {
            bytes: Vec::new(alloc),
        }
    }

    /// The empty text, with room for so many bytes: pushing them takes no more memory.
    pub fn with_room(alloc: Global, count: usize) -> Result<Word, NoMemory>
        ensures { IfOk result (λ word. word ≡ []) }
    {
        let mut bytes = Vec::new(alloc);
        bytes.try_reserve_exact(count)?;
        Ok(Word { bytes })
    }

    /// A text equal to this one, with room for no more.
    pub fn copy(&self, alloc: Global) -> Result<Word, NoMemory>
        ensures { IfOk result (λ copy. copy ≡ self.now) }
    {
        let mut copy = Word::with_room(alloc, self.len())?;
        copy.extend(self.bytes())?;
        Ok(copy)
    }

    /// The texts are the same, byte for byte.
    pub fn equals(&self, other: &Word) -> bool
        ensures { IsTrue result ↔ (self.now ≡ other.now) }
    {
        self.bytes() == other.bytes()
    }

    /// The number of bytes.
    pub fn len(&self) -> usize
        ensures { result ≡ length self.now }
    {
        self.bytes.len()
    }

    /// All bytes, in order.
    pub fn bytes(&self) -> &[u8]
        ensures { result.now ≡ self.now }
    {
        self.bytes.as_slice()
    }

    /// The byte at `at`, counted from 0.
    ///
    /// The two clauses `front` and `rest` follow from `item`: they are what a walk over the text wants.
    pub fn get(&self, at: usize) -> &u8
        requires { at < length self.now }
        ensures item { slice_get self.now at ≡ Some result.now }
        ensures front { take (at + 1) self.now ≡ take at self.now ++ result.now ∷ [] }
        ensures rest { drop at self.now ≡ result.now ∷ drop (at + 1) self.now }
    {
        &self.bytes[at]
    }

    /// Puts `item` behind the last byte.
    pub fn push(&mut self, item: u8) -> Result<(), NoMemory>
        ensures ok { OnOk result (self.new ≡ self.old ++ item ∷ []) }
        ensures err { OnErr result (self.new ≡ self.old) }
    {
        self.bytes.push(item)?;
        Ok(())
    }

    /// Puts all of `more` behind the last byte.
    pub fn extend(&mut self, more: &[u8]) -> Result<(), NoMemory>
        ensures ok { OnOk result (self.new ≡ self.old ++ more.now) }
        ensures err { OnErr result (self.new ≡ self.old) }
    {
        self.bytes.extend_from_slice(more)?;
        Ok(())
    }

    /// Puts `item` before the byte at `at`, or behind the last where `at` is the length.
    pub fn insert(&mut self, at: usize, item: u8) -> Result<(), NoMemory>
        requires { at ≤ length self.old }
        ensures ok { OnOk result (self.new ≡ insert self.old at item) }
        ensures err { OnErr result (self.new ≡ self.old) }
    {
        self.bytes.insert(at, item)?;
        Ok(())
    }

    /// Puts `item` in the place of the byte at `at`, and answers that byte. It takes no memory.
    pub fn replace(&mut self, at: usize, item: u8) -> u8
        requires { at < length self.old }
        ensures old { slice_get self.old at ≡ Some result }
        ensures rest { self.new ≡ slice_set self.old at item }
    {
        mem::replace(&mut self.bytes[at], item)
    }

    /// Takes out the byte at `at`, and answers it. It takes no memory.
    pub fn remove(&mut self, at: usize) -> u8
        requires { at < length self.old }
        ensures old { slice_get self.old at ≡ Some result }
        ensures rest { self.new ≡ remove self.old at }
    {
        self.bytes.remove(at)
    }
}
