//! Types while they are put together: a draft becomes the types of a schema, or names its first fault.
//!
//! ```text
//! let mut draft = Draft::new(alloc);
//! let text = draft.fresh()?;                                   // a type whose shape is still to come
//! let note = draft.model(name, properties)?;                   // its properties name types of the draft
//! draft.define(text, Shape::Str);
//! let types = draft.finish(note)?;
//! ```
//!
//! `finish` gives the types of just this plan, and only where none of them has a fault; otherwise the fault that comes
//! before all others: types that lead back to themselves, identifiers, references and unions by the types' numbers, and
//! only then defaults.
#![tactic(auto)]

mod defaults;
mod draft;
mod faults;
mod leads;
mod needs;
mod order;
mod rule;

pub use draft::Draft;
pub use rule::DraftError;
