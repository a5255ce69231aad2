//! Places of nodes, as the statements that write name them.
ghost use Rattle.std.specs.Prelude.{◌≡◌, ◌∷◌, [], IfOk};
ghost use Rattle.list_core.specs.Outcome.{Gives};
ghost use Rattle.answer_ops.specs.View.{answer_of};
ghost use Rattle.action_core.specs.Statements as specs;
ghost use Rattle.action_steps.specs.Writes.{naming_of};

use answer_ops::Value;
use answer_writing::Giving;
use pointer_core::Pointer;
use snap_core::{Name, NodeNo, Snap, Txt};
use std::alloc::{AllocError, Global};
use tree_core::Place;

/// A write as a statement names it.
#[derive(Drop)]
pub struct Naming {
    /// The node that is written, and the tokens that lead from it to the place.
    pub node: NodeNo,
    pub tokens: Pointer,
    /// The place; none where the statement doesn't take such a key.
    pub place: Option<Place>,
    pub giving: Giving,
}

/// A property of a model, set.
pub fn property_set(alloc: Global, n: NodeNo, name: &Name, x: Value) -> Result<Naming, AllocError>
    ensures { IfOk result (λ w. naming_of w ≡ specs.property_set n name.now (answer_of x)) }
{
    Ok(Naming {
        node: n,
        tokens: one_token(alloc, Txt::copy(alloc, name.text())?)?,
        place: Some(Place::Prop(n, Txt::copy(alloc, name.text())?)),
        giving: Giving::Set(x),
    })
}

/// A key of a map, set or added.
pub fn entry_put(alloc: Global, n: NodeNo, key: &Value, x: Value) -> Result<Naming, AllocError>
    ensures { IfOk result (λ w. naming_of w ≡ specs.entry_put n (answer_of key.now) (answer_of x)) }
{
    Ok(Naming {
        node: n,
        tokens: key_tokens(alloc, key)?,
        place: entry_place(n, key)?,
        giving: Giving::Set(x),
    })
}

/// An item before the one at an index.
pub fn item_inserted(alloc: Global, n: NodeNo, key: &Value, x: Value) -> Result<Naming, AllocError>
    ensures { IfOk result (λ w. naming_of w ≡ specs.item_inserted n (answer_of key.now) (answer_of x)) }
{
    Ok(Naming {
        node: n,
        tokens: key_tokens(alloc, key)?,
        place: item_place(n, key),
        giving: Giving::Insert(x),
    })
}

/// The item at an index, set.
pub fn item_replaced(alloc: Global, n: NodeNo, key: &Value, x: Value) -> Result<Naming, AllocError>
    ensures { IfOk result (λ w. naming_of w ≡ specs.item_replaced n (answer_of key.now) (answer_of x)) }
{
    Ok(Naming {
        node: n,
        tokens: key_tokens(alloc, key)?,
        place: item_place(n, key),
        giving: Giving::Set(x),
    })
}

/// An item of an array or a key of a map, taken out.
pub fn part_dropped(alloc: Global, n: NodeNo, key: &Value) -> Result<Naming, AllocError>
    ensures { IfOk result (λ w. naming_of w ≡ specs.part_dropped n (answer_of key.now)) }
{
    Ok(Naming {
        node: n,
        tokens: key_tokens(alloc, key)?,
        place: part_place(n, key)?,
        giving: Giving::Remove,
    })
}

/// A node as a whole, set.
pub fn snapshot_applied(alloc: Global, n: NodeNo, x: Value) -> Naming
    ensures { naming_of result ≡ specs.snapshot_applied n (answer_of x) }
{
    Naming {
        node: n,
        tokens: Pointer::new(alloc),
        place: Some(Place::Whole(n)),
        giving: Giving::Set(x),
    }
}

/// An item at the end of an array of this size. An end that no place can name is want of memory.
pub fn item_pushed(alloc: Global, n: NodeNo, x: Value, size: usize) -> Result<Naming, AllocError>
    ensures { IfOk result (λ w. naming_of w ≡ specs.item_pushed n (answer_of x) size) }
{
    let Ok(index) = u32::try_from(size) else {
        return Err(AllocError);
    };
    Ok(Naming {
        node: n,
        tokens: Pointer::new(alloc).under_index(size)?,
        place: Some(Place::Item(n, index)),
        giving: Giving::Insert(x),
    })
}

fn one_token(alloc: Global, token: Txt) -> Result<Pointer, AllocError>
    ensures { Gives result (token ∷ []) }
{
    let mut tokens = Pointer::new(alloc);
    tokens.push(token)?;
    Ok(tokens)
}

/// The token that a text or an integer is; any other key names the node alone.
fn key_tokens(alloc: Global, key: &Value) -> Result<Pointer, AllocError>
    ensures { Gives result (specs.key_tokens (answer_of key.now)) }
{
    match key {
        Value::Plain(Snap::Text(text)) => one_token(alloc, text.clone_in()?),
        Value::Plain(Snap::Int(z)) => {
            let digits = format!(in alloc; "{z}")?;
            one_token(alloc, Txt::from_string(digits))
        }
        _ => Ok(Pointer::new(alloc)),
    }
}

/// The entry of a map under a text.
fn entry_place(n: NodeNo, key: &Value) -> Result<Option<Place>, AllocError>
    ensures { Gives result (specs.entry_place n (answer_of key.now)) }
{
    match key {
        Value::Plain(Snap::Text(text)) => Ok(Some(Place::Key(n, text.clone_in()?))),
        _ => Ok(None),
    }
}

/// The item of an array at an integer.
fn item_place(n: NodeNo, key: &Value) -> Option<Place>
    ensures { result ≡ specs.item_place n (answer_of key.now) }
{
    match key {
        Value::Plain(Snap::Int(z)) => Some(Place::Item(n, index_for(*z))),
        _ => None,
    }
}

/// The entry of a map under a text, or the item of an array at an integer.
fn part_place(n: NodeNo, key: &Value) -> Result<Option<Place>, AllocError>
    ensures { Gives result (specs.part_place n (answer_of key.now)) }
{
    match key {
        Value::Plain(Snap::Text(text)) => Ok(Some(Place::Key(n, text.clone_in()?))),
        _ => Ok(item_place(n, key)),
    }
}

/// An integer as an index; the greatest one where it is none.
fn index_for(z: i64) -> u32
    ensures { result ≡ specs.index_for z }
{
    u32::try_from(z).unwrap_or(u32::MAX)
}
