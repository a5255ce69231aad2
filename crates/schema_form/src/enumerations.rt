//! Enumerations: lists of texts, none of which stands twice.
ghost use Rattle.std.specs.Prelude.{◌≡◌, ◌∷◌, ℕ, List, [], not, IfOk, MatchOption};
ghost use Rattle.snap_core.specs.Value.{text, list};
ghost use Rattle.snap_core.specs.View.{view, items_view};
ghost use Rattle.schema_form.specs.Faults as faults;
ghost use Rattle.schema_form.specs.Layout as layout;
ghost use Rattle.schema_form.specs.Outcome.{Finds};
ghost use Rattle.schema_form.specs.Texts.{AreTexts};

use crate::fault::FormError;
use crate::walk::{at_index, wrong};
use list_core::Parts;
use pointer_core::SchemaRule;
use snap_core::{Snap, Txt};
use std::alloc::{AllocError, Global};
use std::collections::BTreeSet;
use type_table::Texts;

/// Reads the texts of an enumeration.
pub fn read_texts(alloc: Global, value: &Snap) -> Result<Texts, FormError>
    ensures finds { Finds result (faults.enumeration_faults (view value.now)) }
    ensures ok { IfOk result (λ texts. texts ≡ layout.texts_of (view value.now)) }
{
    match value {
        Snap::List(items) => read_some(alloc, items.as_slice()),
        _ => Err(wrong(alloc, SchemaRule::Shape)),
    }
}

fn read_some(alloc: Global, items: &[Snap]) -> Result<Texts, FormError>
    ensures finds { Finds result (faults.enumeration_faults (list tt (items_view items.now))) }
    ensures ok { IfOk result (λ texts. texts ≡ layout.texts_in (items_view items.now)) }
{
    if items.is_empty() {
        return Err(wrong(alloc, SchemaRule::Shape));
    }
    read_each(alloc, items)
}

/// The text that a value is, if it is one.
pub fn text_in(value: &Snap) -> Option<&str>
    ensures { MatchOption result
        ((s : List ℕ) → view value.now ≡ text s → ⊥)
        (λ word. view value.now ≡ text word.now) }
{
    match value {
        Snap::Text(text) => Some(text.text()),
        _ => None,
    }
}

/// Adds a text to those that stood earlier. Whether it wasn't among them.
fn is_new<'a>(earlier: &mut BTreeSet<&'a str>, text: &'a str) -> Result<bool, AllocError>
    ensures { IfOk result (λ new. (seen : List (List ℕ)) → AreTexts earlier.old seen
        → (new ≡ not (faults.is_among seen text.now)) × AreTexts earlier.new (text.now ∷ seen)) }
{
    Ok(earlier.insert(text)?)
}

/// Reads texts; refuses the first item that is no text, or that stands a second time.
fn read_each(alloc: Global, items: &[Snap]) -> Result<Texts, FormError>
    ensures finds { Finds result (faults.texts_faults [] 0 (items_view items.now)) }
    ensures ok { IfOk result (λ texts. texts ≡ layout.texts_in (items_view items.now)) }
{
    let mut earlier = BTreeSet::new(alloc);
    let mut texts = Parts::new(alloc);
    for (index, item) in items.iter().enumerate() {
        let Some(text) = text_in(item) else {
            return at_index(index, Err(wrong(alloc, SchemaRule::Shape)));
        };
        if !is_new(&mut earlier, text)? {
            return at_index(index, Err(wrong(alloc, SchemaRule::Twice)));
        }
        texts.push(Txt::copy(alloc, text)?)?;
    }
    Ok(texts)
}
