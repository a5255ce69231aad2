ghost use Rattle.std.specs.Prelude.{◌≡◌, [], ◌∷◌, ◌++◌, ◌≤◌, length, slice_get, take, IfSome, IfNone, IfOk, OnOk, OnErr};
ghost use Rattle.std.specs.Option.{option_copied};
ghost use Rattle.list_core.specs.Roomy.{Roomy, HasRoom, holding};

use std::alloc::{AllocError, Global};
use std::marker::Model;

/// A list that is filled and rolled back where no memory may be asked for: room is made before, by `reserve`,
/// and `append` uses it. What `pop` and `truncate` take away leaves its room.
#[derive(Debug, Drop)]
pub struct RoomyParts<T> {
    items: Vec<T>,
}

impl<T> Model for RoomyParts<T> {
    ghost use Rattle.list_core.specs.Roomy.{Roomy, roomy_code};
    ghost use Rattle.std.specs.Vec.{vec_capacity};

    ghost Value = { Roomy T };

    ghost coded = { roomy_code T.code };

    ghost view = { λ it. record { items = it.items.items; capacity = vec_capacity it.items } };
}

impl<T> RoomyParts<T> {
    /// An empty list without room, which takes its memory from `alloc` when room is made.
    pub fn new(alloc: Global) -> RoomyParts<T>
        ensures { result.items ≡ [] }
    {
        RoomyParts {
            items: Vec::new(alloc),
        }
    }

    /// The items as a slice.
    pub fn as_slice(&self) -> &[T]
        ensures { result.now ≡ self.now.items }
    {
        self.items.as_slice()
    }

    /// How many items there are.
    pub fn len(&self) -> usize
        ensures { result ≡ length self.now.items }
    {
        self.items.len()
    }

    /// The item at an index, or none where there are not so many.
    pub fn get(&self, at: usize) -> Option<&T>
        ensures { option_copied result ≡ slice_get self.now.items at }
    {
        self.items.get(at)
    }

    /// Makes room for `more` items beside those that are there.
    pub fn reserve(&mut self, more: usize) -> Result<(), AllocError>
        ensures items { self.new.items ≡ self.old.items }
        ensures ok { OnOk result (HasRoom self.new more) }
        ensures kept { self.old.capacity ≤ self.new.capacity }
        ensures err { OnErr result (self.new ≡ self.old) }
    {
        self.items.reserve(more)
    }

    /// Adds a part at the end, for which there is room.
    pub fn append(&mut self, part: T)
        requires { HasRoom self.old 1 }
        ensures { self.new ≡ holding self.old (self.old.items ++ part ∷ []) }
    {
        let at = self.items.len();
        self.items.insert(at, part).unwrap();
    }

    /// Takes the last part away.
    pub fn pop(&mut self) -> Option<T>
        ensures some { IfSome result (λ part. self.old ≡ holding self.new (self.new.items ++ part ∷ [])) }
        ensures none { IfNone result ((self.old.items ≡ []) × (self.new ≡ self.old)) }
    {
        self.items.pop()
    }
}

impl<T: Drop> RoomyParts<T> {
    /// Leaves the first `len` items; all of them where there are no more.
    pub fn truncate(&mut self, len: usize)
        ensures { self.new ≡ holding self.old (take len self.old.items) }
    {
        self.items.truncate(len);
    }
}
