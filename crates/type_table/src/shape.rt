use list_core::Parts;
use snap_core::{ModelNo, Name, Snap, Txt, TypeNo};

/// What a type is: which values it takes, and what it makes where no value is given.
#[derive(Debug, Drop)]
pub enum Shape {
    /// Texts.
    Str,
    /// Whole numbers.
    Integer,
    Boolean,
    /// null alone.
    Null,
    /// One scalar alone: null, a boolean, an integer or a text.
    Literal(Snap),
    /// These texts alone.
    Enumeration(Texts),
    /// Texts that tell the models of one kind in a tree apart.
    Identifier,
    /// Whole numbers that tell the models of one kind in a tree apart.
    IdentifierNumber,
    /// Any value, kept as it is; null where none is given.
    Frozen,
    /// What the type takes; where no value is given, what the type makes of the default.
    Optional(TypeNo, Snap),
    /// null, or what the type takes; null where no value is given.
    Maybe(TypeNo),
    /// The same as `Maybe`, as JSON has no undefined.
    MaybeNull(TypeNo),
    /// What the member takes that the value chooses.
    Union(Members),
    /// The texts or the integers of the type that meet the conditions. The type, names followed, is
    /// `Str` or `Integer`; over any other nothing is made.
    Refinement(TypeNo, Conditions),
    /// Lists of what the type takes; empty where none is given.
    Array(TypeNo),
    /// Records of what the type takes, under any keys; empty where none is given.
    Map(TypeNo),
    /// Records with the properties of a model.
    Model(ModelNo),
    /// The identifier of a model of the type.
    Reference(TypeNo),
    /// The identifier of a model of the type, or null where the type is a property's type.
    Safe(TypeNo),
    /// A name that stands for the type.
    Named(TypeNo),
}

/// The texts of an enumeration.
pub type Texts = Parts<Txt>;

/// The members of a union.
pub type Members = Parts<TypeNo>;

/// The conditions of a refinement.
pub type Conditions = Parts<Condition>;

/// What a refinement asks of a text or of an integer.
#[derive(Debug, Drop)]
pub enum Condition {
    /// An integer is at least this.
    Min(i64),
    /// An integer is at most this.
    Max(i64),
    /// A text has at least so many characters, counted as Unicode scalar values.
    MinLength(i64),
    /// A text has at most so many characters.
    MaxLength(i64),
    /// A text begins with these bytes.
    StartsWith(Txt),
}

/// One property of a model: its name and the type of its value.
#[derive(Debug, Drop)]
pub struct Property {
    pub name: Name,
    pub of: TypeNo,
}

/// The properties of a model, names ascending by bytes.
pub type Properties = Parts<Property>;

/// A model: its name, its properties, and the number of the type that it is.
#[derive(Debug, Drop)]
pub struct ModelType {
    pub name: Name,
    pub properties: Properties,
    pub own: TypeNo,
}
