//! What a schema file without a fault in form says.
use list_core::Parts;
use model_syntax::Behaviour;
use pointer_core::Pointer;
use snap_core::{ModelNo, Name, Snap, TypeNo};
use type_table::{Conditions, Members, Properties, Texts};

/// Which entry of the types, counted from 0 in the order of the file.
#[derive(Clone, Copy, Debug, PartialEq, Eq)]
pub struct EntryNo(pub usize);

/// The parts of a schema file. Its type expressions are numbered in the order of the file, each before
/// those inside it, and names stand as the entries that they lead to.
#[derive(Debug, Drop)]
pub struct SchemaForm {
    /// The entries of the types, names ascending by bytes.
    pub entries: Parts<Entry>,
    /// All type expressions, each under its number.
    pub expressions: Expressions,
    /// The entries that are models, in the order of the entries.
    pub models: Parts<ModelForm>,
    /// What each of them has beside its properties. What goes astray is left out.
    pub behaviours: Parts<Behaviour>,
    /// The first expression of the file that leads to no model that it may name.
    pub astray: Option<Astray>,
    /// The entry that the root names.
    pub root: EntryNo,
    /// How many changes a document's history keeps.
    pub history: u32,
}

/// One of the types: its name, and the number of its type expression.
#[derive(Debug, Drop)]
pub struct Entry {
    pub name: Name,
    pub of: TypeNo,
}

/// A model: its name, its properties with the numbers of their type expressions, and the names of its actions.
#[derive(Debug, Drop)]
pub struct ModelForm {
    pub name: Name,
    pub properties: Properties,
    pub actions: Parts<Name>,
}

/// Where an expression leads to no model that it may name.
#[derive(Debug, Drop)]
pub struct Astray {
    /// How many type expressions stand before it in the file.
    pub before: TypeNo,
    /// The model that it stands in.
    pub model: ModelNo,
    /// The way to it from that model.
    pub path: Pointer,
}

pub type Expressions = Parts<Expression>;

/// A type expression, which a model is too: where it stands, and what it says.
#[derive(Debug, Drop)]
pub struct Expression {
    pub place: Place,
    pub kind: Kind,
}

/// Where a type expression stands.
#[derive(Clone, Copy, Debug, PartialEq, Eq)]
pub enum Place {
    /// As an entry of the types.
    Entry(EntryNo),
    /// As the property of a model at this index.
    Property(ModelNo, usize),
    /// As that of a parameter: of a model's action at the first index, the parameter at the second.
    Param(ModelNo, usize, usize),
    /// Inside the type expression of this number.
    Part(TypeNo, Step),
}

/// Which part of a type expression another one is.
#[derive(Clone, Copy, Debug, PartialEq, Eq)]
pub enum Step {
    /// The only part.
    Held(Holder),
    /// The type that has a default.
    Defaulted,
    /// The type that is refined.
    Refined,
    /// The member of a union at this index.
    Member(usize),
}

/// What a type expression says.
#[derive(Debug, Drop)]
pub enum Kind {
    Word(Word),
    /// A scalar.
    Literal(Snap),
    /// Texts, none of which stands twice.
    Enumeration(Texts),
    /// A type and its default.
    Optional(TypeNo, Snap),
    /// A form that holds one type.
    Holder(Holder, TypeNo),
    Union(Members),
    /// A type that leads to a text or an integer, and conditions of that kind.
    Refinement(TypeNo, Conditions),
    /// The entry that is named, and is to be a model.
    Reference(EntryNo),
    SafeReference(EntryNo),
    Model(ModelNo),
}

/// What a text stands for as a type.
#[derive(Clone, Copy, Debug, PartialEq, Eq)]
pub enum Word {
    Plain(Plain),
    /// The name of an entry.
    Named(EntryNo),
}

/// The types that a word of their own stands for.
#[derive(Clone, Copy, Debug, PartialEq, Eq)]
pub enum Plain {
    Text,
    Integer,
    Boolean,
    Null,
    Frozen,
    Identifier,
    IdentifierNumber,
}

/// The forms that hold one type and nothing else.
#[derive(Clone, Copy, Debug, PartialEq, Eq)]
pub enum Holder {
    Maybe,
    MaybeNull,
    Array,
    Map,
}
