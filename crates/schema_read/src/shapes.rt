//! The shapes of type expressions.
ghost use Rattle.std.specs.Prelude.{◌≡◌, ◌<◌, length, slice_get};
ghost use Rattle.std.specs.Option.{option_copied};
ghost use Rattle.schema_read.specs.Assembly.{NamesEntry};
ghost use Rattle.schema_read.specs.Types as types;

use schema_form::{Entry, EntryNo, Holder, Kind, Plain, Word};
use snap_core::{ModelNo, TypeNo};
use type_table::Shape;

/// The shape of a type expression.
pub fn kind_shape(entries: &[Entry], kind: Kind) -> Shape
    requires { NamesEntry (length entries.now) kind }
    ensures { result ≡ types.kind_shape entries.now kind }
{
    match kind {
        Kind::Word(Word::Plain(plain)) => plain_shape(plain),
        Kind::Word(Word::Named(entry)) => Shape::Named(type_of(entries, entry)),
        Kind::Literal(value) => Shape::Literal(value),
        Kind::Enumeration(texts) => Shape::Enumeration(texts),
        Kind::Optional(of, default) => Shape::Optional(of, default),
        Kind::Holder(holder, of) => holder_shape(holder, of),
        Kind::Union(members) => Shape::Union(members),
        Kind::Refinement(of, conditions) => Shape::Refinement(of, conditions),
        Kind::Reference(entry) => Shape::Reference(type_of(entries, entry)),
        Kind::SafeReference(entry) => Shape::Safe(type_of(entries, entry)),
        Kind::Model(model) => Shape::Model(model),
    }
}

/// The model that an entry is; none where it is only a name of one.
pub fn model_of(entries: &[Entry], kinds: &[Kind], entry: EntryNo) -> Option<ModelNo>
    requires { entry.0 < length entries.now }
    ensures { result ≡ types.model_of entries.now kinds.now entry }
{
    as_model(kinds.get(type_of(entries, entry).0))
}

fn as_model(kind: Option<&Kind>) -> Option<ModelNo>
    ensures { result ≡ types.as_model (option_copied kind.entry) }
{
    match kind {
        Some(Kind::Model(model)) => Some(*model),
        _ => None,
    }
}

/// The type of an entry.
fn type_of(entries: &[Entry], entry: EntryNo) -> TypeNo
    requires { entry.0 < length entries.now }
    ensures { result ≡ types.type_of entries.now entry }
{
    entries[entry.0].of
}

fn plain_shape(plain: Plain) -> Shape
    ensures { result ≡ types.plain_shape plain }
{
    match plain {
        Plain::Text => Shape::Str,
        Plain::Integer => Shape::Integer,
        Plain::Boolean => Shape::Boolean,
        Plain::Null => Shape::Null,
        Plain::Frozen => Shape::Frozen,
        Plain::Identifier => Shape::Identifier,
        Plain::IdentifierNumber => Shape::IdentifierNumber,
    }
}

fn holder_shape(holder: Holder, of: TypeNo) -> Shape
    ensures { result ≡ types.holder_shape holder of }
{
    match holder {
        Holder::Maybe => Shape::Maybe(of),
        Holder::MaybeNull => Shape::MaybeNull(of),
        Holder::Array => Shape::Array(of),
        Holder::Map => Shape::Map(of),
    }
}
