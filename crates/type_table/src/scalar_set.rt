//! Sets of scalars, in which one is looked for by halves.
ghost use Rattle.std.specs.Prelude.{◌≡◌, false, ◌||◌, OnOk};
ghost use Rattle.snap_core.specs.Value.{Value, null, boolean, integer, text};
ghost use Rattle.snap_core.specs.View.{view};
ghost use Rattle.type_table.specs.Unions.{is_same};
ghost use Rattle.type_table.specs.ScalarSets.{has};

use snap_core::Snap;
use std::alloc::{AllocError, Global};
use std::collections::BTreeMap;

/// A set of scalars.
#[derive(Debug, Drop)]
pub struct ScalarSet<'a> {
    texts: BTreeMap<&'a str, ()>,
    integers: BTreeMap<i64, ()>,
    null: bool,
    on: bool,
    off: bool,
}

impl<'a> ScalarSet<'a> {
    pub fn new(alloc: Global) -> ScalarSet<'a>
        ensures { (v : Value) → has result v ≡ false }
    {
        ScalarSet {
            texts: BTreeMap::new(alloc),
            integers: BTreeMap::new(alloc),
            null: false,
            on: false,
            off: false,
        }
    }

    /// Adds a scalar. A list and a record are none.
    pub fn insert(&mut self, scalar: &'a Snap) -> Result<(), AllocError>
        ensures { OnOk result ((v : Value) → has self.new v ≡ (is_same v (view scalar.now) || has self.old v)) }
    {
        match scalar {
            Snap::Null => {
                self.insert_null();
                Ok(())
            }
            Snap::Bool(b) => {
                self.insert_boolean(*b);
                Ok(())
            }
            Snap::Int(n) => self.insert_integer(*n),
            Snap::Text(text) => self.insert_text(text.text()),
            Snap::List(_) | Snap::Dict(_) => Ok(()),
        }
    }

    pub fn insert_null(&mut self)
        ensures { (v : Value) → has self.new v ≡ (is_same v null || has self.old v) }
    {
        self.null = true;
    }

    pub fn insert_boolean(&mut self, b: bool)
        ensures { (v : Value) → has self.new v ≡ (is_same v (boolean b) || has self.old v) }
    {
        if b {
            self.on = true;
        } else {
            self.off = true;
        }
    }

    pub fn insert_integer(&mut self, n: i64) -> Result<(), AllocError>
        ensures { OnOk result ((v : Value) → has self.new v ≡ (is_same v (integer n) || has self.old v)) }
    {
        self.integers.insert(n, ())?;
        Ok(())
    }

    pub fn insert_text(&mut self, given: &'a str) -> Result<(), AllocError>
        ensures { OnOk result ((v : Value) → has self.new v ≡ (is_same v (text given.now) || has self.old v)) }
    {
        self.texts.insert(given, ())?;
        Ok(())
    }

    pub fn has(&self, scalar: &Snap) -> bool
        ensures { result ≡ has self.now (view scalar.now) }
    {
        match scalar {
            Snap::Null => self.null,
            Snap::Bool(true) => self.on,
            Snap::Bool(false) => self.off,
            Snap::Int(n) => self.integers.contains_key(n),
            Snap::Text(text) => self.has_text(text.text()),
            Snap::List(_) | Snap::Dict(_) => false,
        }
    }

    pub fn has_null(&self) -> bool
        ensures { result ≡ has self.now null }
    {
        self.null
    }

    pub fn has_text(&self, given: &str) -> bool
        ensures { result ≡ has self.now (text given.now) }
    {
        self.texts.contains_key(given)
    }
}
