//! The words of schema files.
ghost use Rattle.std.specs.Prelude.{◌≡◌};
ghost use Rattle.schema_form.specs.Words as words;

use crate::form::{Holder, Plain};

/// The plain type that a word stands for. No type of a schema may have such a word as its name.
pub fn plain_of(word: &str) -> Option<Plain>
    ensures { result ≡ words.plain_of word.now }
{
    match word {
        "string" => Some(Plain::Text),
        "integer" => Some(Plain::Integer),
        "boolean" => Some(Plain::Boolean),
        "null" => Some(Plain::Null),
        "frozen" => Some(Plain::Frozen),
        "identifier" => Some(Plain::Identifier),
        "identifierNumber" => Some(Plain::IdentifierNumber),
        _ => None,
    }
}

/// The forms of type expressions that are an object with one key.
#[derive(Clone, Copy)]
pub enum Form {
    Leaf(Leaf),
    Holder(Holder),
    Optional,
    Union,
}

/// The forms that hold no other forms.
#[derive(Clone, Copy)]
pub enum Leaf {
    Literal,
    Enumeration,
    Refinement,
    Reference,
    SafeReference,
}

/// The form that a key stands for.
pub fn form_of(key: &str) -> Option<Form>
    ensures { result ≡ words.form_of key.now }
{
    match key {
        "literal" => Some(Form::Leaf(Leaf::Literal)),
        "enumeration" => Some(Form::Leaf(Leaf::Enumeration)),
        "optional" => Some(Form::Optional),
        "union" => Some(Form::Union),
        "refinement" => Some(Form::Leaf(Leaf::Refinement)),
        "reference" => Some(Form::Leaf(Leaf::Reference)),
        "safeReference" => Some(Form::Leaf(Leaf::SafeReference)),
        "maybe" => Some(Form::Holder(Holder::Maybe)),
        "maybeNull" => Some(Form::Holder(Holder::MaybeNull)),
        "array" => Some(Form::Holder(Holder::Array)),
        "map" => Some(Form::Holder(Holder::Map)),
        _ => None,
    }
}
