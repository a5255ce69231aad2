ghost use Rattle.std.specs.Prelude.{◌≡◌, [], ◌∷◌, ◌++◌, codes, length, take, IfOk, OnOk, OnErr};
ghost use Rattle.expr_form.specs.Scope.{is_among, always_bound};
ghost use Rattle.expr_form.specs.Names.{bound};
ghost use Rattle.snap_core.specs.View.{view};

use crate::texts::text_in;
use list_core::Parts;
use snap_core::{Snap, Txt};
use std::alloc::{AllocError, Global};
use std::marker::Model;

/// The names that are bound where an expression stands, those that were bound first before the others. Contracts
/// see them as a list, in which a name stands as often as it is bound.
#[derive(Drop)]
pub struct Scope {
    names: Parts<Txt>,
}

impl Model for Scope {
    ghost use Rattle.std.specs.Prelude.{List, ℕ};

    ghost Value = { List (List ℕ) };

    ghost view = { λ s. s.names };
}

impl Scope {
    /// The names that are bound everywhere: `self` and `root`.
    pub fn new(alloc: Global) -> Result<Scope, AllocError>
        ensures { IfOk result (λ scope. scope ≡ always_bound) }
    {
        let mut scope = Scope {
            names: Parts::new(alloc),
        };
        scope.bind("self")?;
        scope.bind("root")?;
        Ok(scope)
    }

    /// Where the scope takes its memory from.
    pub fn allocator(&self) -> Global {
        self.names.allocator()
    }

    /// How many names were bound.
    pub fn len(&self) -> usize
        ensures { result ≡ length self.now }
    {
        self.names.len()
    }

    /// Binds a name.
    pub fn bind(&mut self, name: &str) -> Result<(), AllocError>
        ensures ok { OnOk result (self.new ≡ self.old ++ name.now ∷ []) }
        ensures err { OnErr result (self.new ≡ self.old) }
    {
        let name = Txt::copy(self.names.allocator(), name)?;
        self.names.push(name)
    }

    /// Leaves the first `len` names.
    pub fn leave(&mut self, len: usize)
        ensures { self.new ≡ take len self.old }
    {
        self.names.truncate(len);
    }

    /// Whether a name is bound. The latest ones are looked at first: a name is mostly used soon after it is bound.
    pub fn has(&self, name: &str) -> bool
        ensures { result ≡ is_among self.now name.now }
    {
        let names = self.names.as_slice();
        let mut left = names.len();
        while left > 0 {
            left -= 1;
            if name == names[left].text() {
                return true;
            }
        }
        false
    }
}

/// Binds the name that a value is, if it is a text.
pub fn bind_in(scope: &mut Scope, value: &Snap) -> Result<(), AllocError>
    ensures ok { OnOk result (scope.new ≡ bound scope.old (view value.now)) }
    ensures err { OnErr result (scope.new ≡ scope.old) }
{
    match text_in(value) {
        Some(name) => scope.bind(name),
        None => Ok(()),
    }
}
