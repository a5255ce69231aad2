//! The form of schema files: one walk over the JSON that reads a file into a [`SchemaForm`], or names its first fault.
//!
//! ```text
//! match read_form(alloc, &file) {
//!     Ok(form) => ..,                        // entries, type expressions by number, models, root, history
//!     Err(FormError::Wrong(fault)) => ..,    // a rule, and the pointer to where it isn't met
//!     Err(FormError::Memory) => ..,
//! }
//! let laid = taken_apart(alloc, form.expressions)?;                            // where each stands, and what it says
//! let pointer = pointer_to(alloc, entries, models, laid.places.as_slice(), t)?; // from the file to expression t
//! ```
//!
//! `read_form` promises that the form is that of the file and that the file has no fault in form, names,
//! repetitions and the range of the history, or that the fault is the first of them in document order. In a form all
//! numbers name what is there, so nobody has to look at the file again.
//!
//! Two laws tie a form to its file: each type expression has one pointer, which leads in the file to the value
//! that it is read from (`pointers_lead`), and the entries are the file's types under their names, in order
//! (`entries_are_types`).
#![tactic(auto)]

mod actions;
mod bases;
mod entries;
mod enumerations;
mod expressions;
mod fault;
mod file;
mod form;
mod keys;
mod laws;
mod leaves;
mod models;
mod names;
mod numbers;
mod objects;
mod params;
mod pointer;
mod properties;
mod refinements;
mod setting;
mod targets;
mod walk;
mod words;

pub use expr_form::Fault;
pub use fault::FormError;
pub use file::read_form;
pub use form::{
    Astray, Entry, EntryNo, Expression, Expressions, Holder, Kind, ModelForm, Place, Plain,
    SchemaForm, Step, Word,
};
pub use laws::{entries_are_types, pointers_lead};
pub use pointer::{Laid, pointer_to, taken_apart};
