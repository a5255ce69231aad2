//! What a path names.

/// What a path names.
#[derive(Clone, Copy, Debug)]
pub enum Place<'p> {
    /// What tries a value against the schema.
    Check,
    /// The names of all documents.
    Names,
    /// A part of the document of that name.
    Document { name: &'p str, part: Part },
    /// A view of the document of that name.
    View { name: &'p str, view: &'p str },
}

/// A part of a document that has a path of its own.
#[derive(Clone, Copy, Debug, PartialEq, Eq)]
pub enum Part {
    /// The document itself.
    Whole,
    Snapshot,
    Patches,
    /// What a reference leads to.
    Reference,
    /// The actions of its nodes.
    Actions,
}
