//! The scalars that the members of a union take.
ghost use Rattle.std.specs.Prelude.{◌≡◌, [], ◌∷◌, List, map, OnOk};
ghost use Rattle.std.specs.List.{list_any};
ghost use Rattle.std.specs.Option.{option_copied};
ghost use Rattle.type_table.specs.Unions as unions;
ghost use Rattle.snap_core.specs.Value.{null, boolean, integer, text};
ghost use Rattle.snap_core.specs.View.{view};
ghost use Rattle.type_table.specs.Taking.{scalars_as, is_taken, AreTaken};

use crate::scalar_set::ScalarSet;
use crate::shape::{Shape, Texts};
use crate::table::Table;
use snap_core::{Snap, Txt};
use std::alloc::{AllocError, Global};

/// The scalars that a shape takes, conditions aside.
#[derive(Clone, Copy, Debug)]
pub enum Scalars<'a> {
    Texts,
    Integers,
    Booleans,
    Null,
    One(&'a Snap),
    Each(&'a Texts),
    None,
}

/// The scalars of a shape.
pub fn scalars_of<'a>(table: &Table, shape: Option<&'a Shape>) -> Scalars<'a>
    ensures { scalars_as result ≡ unions.scalars_of table.now (option_copied shape.entry) }
{
    match shape {
        Some(Shape::Str) => Scalars::Texts,
        Some(Shape::Integer) => Scalars::Integers,
        Some(Shape::Boolean) => Scalars::Booleans,
        Some(Shape::Null) => Scalars::Null,
        Some(Shape::Literal(literal)) => Scalars::One(literal),
        Some(Shape::Enumeration(texts)) => Scalars::Each(texts),
        Some(Shape::Refinement(base, _)) => base_scalars(table.named_shape(*base)),
        _ => Scalars::None,
    }
}

fn base_scalars<'a>(base: Option<&Shape>) -> Scalars<'a>
    ensures { scalars_as result ≡ unions.base_scalars (option_copied base.entry) }
{
    match base {
        Some(Shape::Str) => Scalars::Texts,
        Some(Shape::Integer) => Scalars::Integers,
        _ => Scalars::None,
    }
}

/// The scalars that some members take: single ones, and whether all of a kind, and some of a kind.
#[derive(Debug, Drop)]
pub struct Taken<'a> {
    each: ScalarSet<'a>,
    all_texts: bool,
    all_integers: bool,
    all_booleans: bool,
    some_text: bool,
    some_integer: bool,
    some_boolean: bool,
}

impl<'a> Taken<'a> {
    /// What no member takes.
    pub fn new(alloc: Global) -> Taken<'a>
        ensures { AreTaken result [] }
    {
        Taken {
            each: ScalarSet::new(alloc),
            all_texts: false,
            all_integers: false,
            all_booleans: false,
            some_text: false,
            some_integer: false,
            some_boolean: false,
        }
    }

    /// Whether one of these scalars is taken by a member.
    pub fn meets(&self, scalars: Scalars) -> bool
        ensures { (taken : List unions.Scalars) → AreTaken self.now taken
            → result ≡ list_any (unions.do_meet (scalars_as scalars.entry)) taken }
    {
        match scalars {
            Scalars::Texts => self.some_text,
            Scalars::Integers => self.some_integer,
            Scalars::Booleans => self.some_boolean,
            Scalars::Null => self.each.has_null(),
            Scalars::One(scalar) => self.has(scalar),
            Scalars::Each(texts) => self.has_one(texts),
            Scalars::None => false,
        }
    }

    fn has(&self, scalar: &Snap) -> bool
        ensures { result ≡ is_taken self.now (view scalar.now) }
    {
        match scalar {
            Snap::Bool(_) => self.all_booleans || self.each.has(scalar),
            Snap::Int(_) => self.all_integers || self.each.has(scalar),
            Snap::Text(_) => self.all_texts || self.each.has(scalar),
            _ => self.each.has(scalar),
        }
    }

    fn has_one(&self, texts: &Texts) -> bool
        ensures { result ≡ list_any (is_taken self.now) (map text texts.now) }
    {
        for one in texts.as_slice() {
            if self.has_text(one.text()) {
                return true;
            }
        }
        false
    }

    fn has_text(&self, given: &str) -> bool
        ensures { result ≡ is_taken self.now (text given.now) }
    {
        self.all_texts || self.each.has_text(given)
    }

    /// Adds the scalars of one more member.
    pub fn add(&mut self, scalars: Scalars<'a>) -> Result<(), AllocError>
        ensures { OnOk result ((taken : List unions.Scalars) → AreTaken self.old taken
            → AreTaken self.new (scalars_as scalars.entry ∷ taken)) }
    {
        match scalars {
            Scalars::Texts => {
                self.add_texts();
                Ok(())
            }
            Scalars::Integers => {
                self.add_integers();
                Ok(())
            }
            Scalars::Booleans => {
                self.add_booleans();
                Ok(())
            }
            Scalars::Null => {
                self.add_null();
                Ok(())
            }
            Scalars::One(scalar) => self.add_one(scalar),
            Scalars::Each(texts) => self.add_each(texts.as_slice()),
            Scalars::None => Ok(()),
        }
    }

    fn add_texts(&mut self)
        ensures { (taken : List unions.Scalars) → AreTaken self.old taken
            → AreTaken self.new (unions.texts ∷ taken) }
    {
        self.all_texts = true;
        self.some_text = true;
    }

    fn add_integers(&mut self)
        ensures { (taken : List unions.Scalars) → AreTaken self.old taken
            → AreTaken self.new (unions.integers ∷ taken) }
    {
        self.all_integers = true;
        self.some_integer = true;
    }

    fn add_booleans(&mut self)
        ensures { (taken : List unions.Scalars) → AreTaken self.old taken
            → AreTaken self.new (unions.booleans ∷ taken) }
    {
        self.all_booleans = true;
        self.some_boolean = true;
    }

    fn add_null(&mut self)
        ensures { (taken : List unions.Scalars) → AreTaken self.old taken
            → AreTaken self.new (unions.these (null ∷ []) ∷ taken) }
    {
        self.each.insert_null();
    }

    fn add_one(&mut self, scalar: &'a Snap) -> Result<(), AllocError>
        ensures { OnOk result ((taken : List unions.Scalars) → AreTaken self.old taken
            → AreTaken self.new (unions.these (view scalar.now ∷ []) ∷ taken)) }
    {
        match scalar {
            Snap::Null => {
                self.add_null();
                Ok(())
            }
            Snap::Bool(b) => {
                self.add_boolean(*b);
                Ok(())
            }
            Snap::Int(n) => self.add_integer(*n),
            Snap::Text(text) => self.add_text(text.text()),
            // No scalar.
            Snap::List(_) | Snap::Dict(_) => Ok(()),
        }
    }

    fn add_boolean(&mut self, b: bool)
        ensures { (taken : List unions.Scalars) → AreTaken self.old taken
            → AreTaken self.new (unions.these (boolean b ∷ []) ∷ taken) }
    {
        self.each.insert_boolean(b);
        self.some_boolean = true;
    }

    fn add_integer(&mut self, n: i64) -> Result<(), AllocError>
        ensures { OnOk result ((taken : List unions.Scalars) → AreTaken self.old taken
            → AreTaken self.new (unions.these (integer n ∷ []) ∷ taken)) }
    {
        self.each.insert_integer(n)?;
        self.some_integer = true;
        Ok(())
    }

    fn add_text(&mut self, given: &'a str) -> Result<(), AllocError>
        ensures { OnOk result ((taken : List unions.Scalars) → AreTaken self.old taken
            → AreTaken self.new (unions.these (text given.now ∷ []) ∷ taken)) }
    {
        self.each.insert_text(given)?;
        self.some_text = true;
        Ok(())
    }

    fn add_each(&mut self, texts: &'a [Txt]) -> Result<(), AllocError>
        ensures { OnOk result ((taken : List unions.Scalars) → AreTaken self.old taken
            → AreTaken self.new (unions.these (map text texts.now) ∷ taken)) }
    {
        for one in texts {
            self.add_text(one.text())?;
        }
        Ok(())
    }
}
