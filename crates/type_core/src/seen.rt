//! Identifiers that were met, each beside its model.
ghost use Rattle.std.specs.Prelude.{◌≡◌, [], ◌∷◌, ◌++◌, Some, None, IfOk, OnOk, if◌then◌else◌};
ghost use Rattle.std.specs.List.{list_any};
ghost use Rattle.type_core.specs.Seen.{key_view};
ghost use Rattle.snap_core.specs.View.{view};
ghost use Rattle.type_core.specs.Doubled as specs;
ghost use Rattle.type_table.specs.Identifiers.{ident_of};
ghost use Rattle.type_core.specs.Finding.{Finds, met, is_met};

use indexmap::IndexSet;
use snap_core::{ModelNo, Snap};
use std::alloc::{AllocError, Global};
use std::marker::Model;

/// An identifier of a model.
#[derive(Debug, Drop, PartialEq, Eq, Hash)]
enum Key {
    Text(usize, String),
    Number(usize, i64),
}

/// Identifiers that were met, each beside its model. Contracts see them in the order in which they
/// were met.
#[derive(Drop)]
pub struct Seen {
    keys: IndexSet<Key>,
}

impl Model for Seen {
    ghost use Rattle.std.specs.Prelude.{List, map};
    ghost use Rattle.type_core.specs.Doubled as specs;
    ghost use Rattle.type_core.specs.Seen.{key_view};

    ghost Value = { List specs.Key };

    ghost view = { λ s. map key_view s.keys.keys };
}

impl Seen {
    /// Nothing was met yet.
    pub fn new(alloc: Global) -> Seen
        ensures { result ≡ [] }
    {
        Seen {
            keys: IndexSet::new(alloc),
        }
    }

    /// Whether an identifier was met in one of its model; where it wasn't, it is met now.
    pub fn stood(&mut self, m: ModelNo, identifier: &Snap) -> Result<bool, AllocError>
        ensures { let itself = specs.found_itself m (ident_of (Some (view identifier.now))) in
            IfOk result (λ stood. Finds (if stood then Some [] else None) self.old self.new itself) }
    {
        match identifier {
            Snap::Text(text) => {
                let text = String::from_str(*self.keys.allocator(), text.text())?;
                self.add(Key::Text(m.0, text))
            }
            Snap::Int(n) => self.add(Key::Number(m.0, *n)),
            _ => Ok(false),
        }
    }

    /// Meets the identifier that a value is, in one of a model. A value that is neither a text nor a number is none.
    pub fn meet(&mut self, m: ModelNo, identifier: &Snap) -> Result<(), AllocError>
        ensures { OnOk result (self.new ≡ met self.old m (ident_of (Some (view identifier.now)))) }
    {
        match identifier {
            Snap::Text(text) => {
                let text = String::from_str(*self.keys.allocator(), text.text())?;
                self.add(Key::Text(m.0, text))?;
                Ok(())
            }
            Snap::Int(n) => {
                self.add(Key::Number(m.0, *n))?;
                Ok(())
            }
            _ => Ok(()),
        }
    }

    /// Whether the identifier that a value is was met in one of a model. Null asks for none.
    pub fn has(&self, m: ModelNo, identifier: &Snap) -> Result<bool, AllocError>
        ensures { IfOk result (λ has. has ≡ is_met self.now m (ident_of (Some (view identifier.now)))) }
    {
        match identifier {
            Snap::Text(text) => {
                let text = String::from_str(*self.keys.allocator(), text.text())?;
                Ok(self.holds(&Key::Text(m.0, text)))
            }
            Snap::Int(n) => Ok(self.holds(&Key::Number(m.0, *n))),
            _ => Ok(true),
        }
    }

    fn holds(&self, key: &Key) -> bool
        ensures { result ≡ list_any (specs.same_key (key_view key.now)) self.now }
    {
        self.keys.contains(key)
    }

    fn add(&mut self, key: Key) -> Result<bool, AllocError>
        ensures { IfOk result (λ stood. (stood ≡ list_any (specs.same_key (key_view key)) self.old)
            × (self.new ≡ (if stood then self.old else self.old ++ key_view key ∷ []))) }
    {
        let (_, fresh) = self.keys.insert_full(key)?;
        Ok(!fresh)
    }
}
