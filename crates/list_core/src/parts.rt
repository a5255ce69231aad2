ghost use Rattle.std.specs.Prelude.{◌≡◌, [], ◌∷◌, ◌++◌, ◌<◌, ◌≤◌, length, slice_get, slice_set, take, Some, ◌↔◌, IsTrue, IfSome, IfNone, OnOk, OnErr};
ghost use Rattle.std.specs.Borrow.{sem};
ghost use Rattle.std.specs.List.{insert, remove};
ghost use Rattle.std.specs.Option.{option_copied};
ghost use Rattle.list_core.specs.Outcome.{Gives};
ghost use Rattle.list_core.specs.Lending.{LendsItem};

use std::alloc::{AllocError, Global};
use std::marker::Model;

/// A list of parts on the heap. A recursive type may hold itself through it.
#[derive(Debug, Drop)]
pub struct Parts<T> {
    items: Vec<T>,
}

impl<T> Model for Parts<T> {
    ghost use Rattle.std.specs.Prelude.{List};
    ghost use Rattle.std.specs.Coded.{coded_list};

    ghost Value = { List T };

    ghost coded = { coded_list T.code };

    ghost view = { λ it. it.items.items };
}

impl<T> Parts<T> {
    /// An empty list, which takes its memory from `alloc` as it grows.
    pub fn new(alloc: Global) -> Parts<T>
        ensures { result ≡ [] }
    {
        Parts {
            items: Vec::new(alloc),
        }
    }

    /// The list of a `Vec`'s items, which it takes over.
    pub fn from_vec(items: Vec<T>) -> Parts<T>
        ensures { result ≡ items.items }
    {
        Parts { items }
    }

    /// The items as a `Vec`, which takes them over.
    pub fn into_vec(self) -> Vec<T>
        ensures { result.items ≡ self }
    {
        let Parts { items } = self;
        items
    }

    /// Where the list takes its memory from.
    pub fn allocator(&self) -> Global {
        *self.items.allocator()
    }

    /// The items as a slice.
    pub fn as_slice(&self) -> &[T]
        ensures { result.now ≡ self.now }
    {
        self.items.as_slice()
    }

    /// How many items there are.
    pub fn len(&self) -> usize
        ensures { result ≡ length self.now }
    {
        self.items.len()
    }

    /// Whether there are none.
    pub fn is_empty(&self) -> bool
        ensures { IsTrue result ↔ (self.now ≡ []) }
    {
        self.items.is_empty()
    }

    /// The item at an index, or none where there are not so many.
    pub fn get(&self, at: usize) -> Option<&T>
        ensures { option_copied result ≡ slice_get self.now at }
    {
        self.items.get(at)
    }

    /// The item at an index, lent to be changed in its place.
    pub fn item_mut(&mut self, at: usize) -> &mut T
        requires { at < length self.old }
        ensures* writes_back { sem 𝓛 (LendsItem T.row self.entry at result) }
        ensures value { slice_get self.old at ≡ Some result.now }
    {
        &mut self.items[at]
    }

    /// Takes the item at `at` away. Those behind it move up.
    pub fn remove(&mut self, at: usize) -> T
        requires { at < length self.old }
        ensures value { slice_get self.old at ≡ Some result }
        ensures rest { self.new ≡ remove self.old at }
    {
        self.items.remove(at)
    }
}

impl<T: Drop> Parts<T> {
    /// Adds a part at the end. It is gone where memory runs out.
    pub fn push(&mut self, part: T) -> Result<(), AllocError>
        ensures ok { OnOk result (self.new ≡ self.old ++ part ∷ []) }
        ensures err { OnErr result (self.new ≡ self.old) }
    {
        self.items.push(part)?;
        Ok(())
    }

    /// Adds a part before the first one. It is gone where memory runs out.
    pub fn push_front(&mut self, part: T) -> Result<(), AllocError>
        ensures ok { OnOk result (self.new ≡ part ∷ self.old) }
        ensures err { OnErr result (self.new ≡ self.old) }
    {
        self.items.insert(0, part)?;
        Ok(())
    }

    /// Puts a part before the one at `at`, or at the end where `at` is the length. It is gone where memory
    /// runs out.
    pub fn insert(&mut self, at: usize, part: T) -> Result<(), AllocError>
        requires { at ≤ length self.old }
        ensures ok { OnOk result (self.new ≡ insert self.old at part) }
        ensures err { OnErr result (self.new ≡ self.old) }
    {
        self.items.insert(at, part)?;
        Ok(())
    }

    /// Moves the parts of another list to the end. They are gone where memory runs out.
    pub fn extend(&mut self, others: Parts<T>) -> Result<(), AllocError>
        ensures ok { OnOk result (self.new ≡ self.old ++ others) }
        ensures err { OnErr result (self.new ≡ self.old) }
    {
        let mut items = others.into_vec();
        self.items.append(&mut items)
    }

    /// Leaves the first `len` items; all of them where there are no more.
    pub fn truncate(&mut self, len: usize)
        ensures { self.new ≡ take len self.old }
    {
        self.items.truncate(len);
    }

    /// Puts a part in the place of the one at `at`.
    pub fn set(&mut self, at: usize, part: T)
        requires { at < length self.old }
        ensures { self.new ≡ slice_set self.old at part }
    {
        self.items[at] = part;
    }

    /// Takes the last part away.
    pub fn pop(&mut self) -> Option<T>
        ensures some { IfSome result (λ part. self.old ≡ self.new ++ part ∷ []) }
        ensures none { IfNone result ((self.old ≡ []) × (self.new ≡ [])) }
    {
        self.items.pop()
    }
}

impl<T: Copy> Parts<T> {
    /// A list of the same items.
    pub fn from_slice(alloc: Global, items: &[T]) -> Result<Parts<T>, AllocError>
        ensures { Gives result items.now }
    {
        Ok(Parts {
            items: Vec::from_slice(alloc, items)?,
        })
    }
}
