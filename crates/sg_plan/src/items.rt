//! A list that contracts see as the list of its items.
ghost use Rattle.std.specs.Prelude.{◌≡◌, ◌+◌, [], ◌∷◌, ◌++◌, ◌<◌, ◌≤◌, length, take, drop, replicate, slice_get, slice_set, insert, remove, Some, IfOk, OnOk, OnErr};

use crate::memory::NoMemory;
use std::alloc::Global;
use std::marker::Model;
use std::mem;

/// A list that contracts see as the list of its items.
///
/// It keeps its allocator. Only `push`, `extend`, `push_times`, `insert`, `reserve`, `with_room`, `filled` and `copy`
/// take memory.
#[derive(Debug, Drop)]
pub struct Items<T> {
    items: Vec<T>,
}

impl<T> Model for Items<T> {
    ghost use Rattle.std.specs.Prelude.{List};
    ghost use Rattle.std.specs.Coded.{coded_list};

    ghost Value = { List T };

    ghost coded = { coded_list T.code };

    ghost view = { λ it. it.items.items };
}

impl<T> Items<T> {
    /// The empty list. It takes no memory.
    pub fn new(alloc: Global) -> Items<T>
        ensures { result ≡ [] }
    {
        Items {
            items: Vec::new(alloc),
        }
    }

    /// The number of items.
    pub fn len(&self) -> usize
        ensures { result ≡ length self.now }
    {
        self.items.len()
    }

    /// All items, in order.
    pub fn as_slice(&self) -> &[T]
        ensures { result.now ≡ self.now }
    {
        self.items.as_slice()
    }

    /// The item at `at`, counted from 0.
    ///
    /// The two clauses `front` and `rest` follow from `item`: they are what a walk over the list wants.
    pub fn get(&self, at: usize) -> &T
        requires { at < length self.now }
        ensures item { slice_get self.now at ≡ Some result.now }
        ensures front { take (at + 1) self.now ≡ take at self.now ++ result.now ∷ [] }
        ensures rest { drop at self.now ≡ result.now ∷ drop (at + 1) self.now }
    {
        &self.items[at]
    }
}

impl<T: Drop> Items<T> {
    /// The empty list, with room for so many items: pushing them takes no more memory.
    pub fn with_room(alloc: Global, count: usize) -> Result<Items<T>, NoMemory>
        ensures { IfOk result (λ items. items ≡ []) }
    {
        let mut items = Vec::new(alloc);
        items.try_reserve_exact(count)?;
        Ok(Items { items })
    }

    /// Makes room for so many more items: pushing them takes no more memory.
    pub fn reserve(&mut self, more: usize) -> Result<(), NoMemory>
        ensures { self.new ≡ self.old }
    {
        self.items.try_reserve(more)?;
        Ok(())
    }

    /// Puts `item` behind the last one.
    pub fn push(&mut self, item: T) -> Result<(), NoMemory>
        ensures ok { OnOk result (self.new ≡ self.old ++ item ∷ []) }
        ensures err { OnErr result (self.new ≡ self.old) }
    {
        self.items.push(item)?;
        Ok(())
    }

    /// Puts `item` before the one at `at`, or behind the last where `at` is the length.
    pub fn insert(&mut self, at: usize, item: T) -> Result<(), NoMemory>
        requires { at ≤ length self.old }
        ensures ok { OnOk result (self.new ≡ insert self.old at item) }
        ensures err { OnErr result (self.new ≡ self.old) }
    {
        self.items.insert(at, item)?;
        Ok(())
    }

    /// Puts `item` in the place of the one at `at`, and answers that one. It takes no memory.
    pub fn replace(&mut self, at: usize, item: T) -> T
        requires { at < length self.old }
        ensures old { slice_get self.old at ≡ Some result }
        ensures rest { self.new ≡ slice_set self.old at item }
    {
        mem::replace(&mut self.items[at], item)
    }

    /// Takes out the item at `at`, and answers it. It takes no memory.
    pub fn remove(&mut self, at: usize) -> T
        requires { at < length self.old }
        ensures old { slice_get self.old at ≡ Some result }
        ensures rest { self.new ≡ remove self.old at }
    {
        self.items.remove(at)
    }
}

impl<T: Copy + Drop> Items<T> {
    /// So many times the value, with room for no more.
    pub fn filled(alloc: Global, value: T, count: usize) -> Result<Items<T>, NoMemory>
        ensures { IfOk result (λ items. items ≡ replicate count value) }
    {
        let mut items = Vec::new(alloc);
        items.try_reserve_exact(count)?;
        items.resize(count, value)?;
        Ok(Items { items })
    }

    /// Puts the value behind the last item, so many times.
    pub fn push_times(&mut self, value: T, count: usize) -> Result<(), NoMemory>
        ensures ok { OnOk result (self.new ≡ self.old ++ replicate count value) }
        ensures err { OnErr result (self.new ≡ self.old) }
    {
        let Some(len) = self.items.len().checked_add(count) else {
            return Err(NoMemory);
        };
        self.items.resize(len, value)?;
        Ok(())
    }

    /// Puts all of `more` behind the last item, in their order.
    pub fn extend(&mut self, more: &[T]) -> Result<(), NoMemory>
        ensures ok { OnOk result (self.new ≡ self.old ++ more.now) }
        ensures err { OnErr result (self.new ≡ self.old) }
    {
        self.items.extend_from_slice(more)?;
        Ok(())
    }

    /// A list equal to this one, with room for no more.
    pub fn copy(&self, alloc: Global) -> Result<Items<T>, NoMemory>
        ensures { IfOk result (λ copy. copy ≡ self.now) }
    {
        let mut copy = Items::with_room(alloc, self.len())?;
        copy.extend(self.as_slice())?;
        Ok(copy)
    }
}
