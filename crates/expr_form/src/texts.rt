//! The texts and lists that forms are made of.
ghost use Rattle.std.specs.Prelude.{◌≡◌, Some, None, MatchOption};
ghost use Rattle.snap_core.specs.Value.{list};
ghost use Rattle.snap_core.specs.View.{view, items_view, fields_view};
ghost use Rattle.expr_form.specs.Texts.{pair_in, triple_in, text_in, items_in, fields_in};

use snap_core::{Field, Snap};

/// The text that a value is, if it is one.
pub fn text_in(value: &Snap) -> Option<&str>
    ensures { MatchOption result (text_in (view value.now) ≡ None) (λ word. text_in (view value.now) ≡ Some word.now) }
{
    match value {
        Snap::Text(text) => Some(text.text()),
        _ => None,
    }
}

/// The items of a value that is a list.
pub fn items_in(value: &Snap) -> Option<&[Snap]>
    ensures { MatchOption result (items_in (view value.now) ≡ None)
        (λ items. items_in (view value.now) ≡ Some (items_view items.now)) }
{
    match value {
        Snap::List(items) => Some(items.as_slice()),
        _ => None,
    }
}

/// The fields of a value that is a record.
pub fn fields_in(value: &Snap) -> Option<&[Field]>
    ensures { MatchOption result (fields_in (view value.now) ≡ None)
        (λ fields. fields_in (view value.now) ≡ Some (fields_view fields.now)) }
{
    match value {
        Snap::Dict(fields) => Some(fields.as_slice()),
        _ => None,
    }
}

/// The two items of a value that is a list of so many.
pub fn pair_in(value: &Snap) -> Option<(&Snap, &Snap)>
    ensures { MatchOption result (pair_in (view value.now) ≡ None)
        (λ p. pair_in (view value.now) ≡ Some (view p.0.now, view p.1.now)) }
{
    match value {
        Snap::List(items) => pair_among(items.as_slice()),
        _ => None,
    }
}

fn pair_among(items: &[Snap]) -> Option<(&Snap, &Snap)>
    ensures { MatchOption result (pair_in (list tt (items_view items.now)) ≡ None)
        (λ p. pair_in (list tt (items_view items.now)) ≡ Some (view p.0.now, view p.1.now)) }
{
    if items.len() != 2 {
        return None;
    }
    Some((&items[0], &items[1]))
}

/// The three items of a value that is a list of so many.
pub fn triple_in(value: &Snap) -> Option<(&Snap, &Snap, &Snap)>
    ensures { MatchOption result (triple_in (view value.now) ≡ None)
        (λ p. triple_in (view value.now) ≡ Some (view p.0.now, view p.1.now, view p.2.now)) }
{
    match value {
        Snap::List(items) => triple_among(items.as_slice()),
        _ => None,
    }
}

fn triple_among(items: &[Snap]) -> Option<(&Snap, &Snap, &Snap)>
    ensures { MatchOption result (triple_in (list tt (items_view items.now)) ≡ None)
        (λ p. triple_in (list tt (items_view items.now)) ≡ Some (view p.0.now, view p.1.now, view p.2.now)) }
{
    if items.len() != 3 {
        return None;
    }
    Some((&items[0], &items[1], &items[2]))
}
