//! The types of a schema, and making: what a type makes of a value that comes from outside.
//!
//! ```text
//! let made = make(alloc, &types, types.model_type(types.root()), Some(&given));
//! match made {
//!     Ok(snapshot) => doubled(alloc, &types, &snapshot)?,      // a second model of one identifier, if there is one
//!     Err(MakeError::Refused(refusal)) => ..,                  // the first rule that isn't met, and its place
//!     Err(MakeError::Memory) => ..,
//! }
//! ```
//!
//! `make` gives what the table of types says, and a refusal where that has no row; what was made is made of itself,
//! has whole numbers and ascending keys, and keeps within the limits. `Types` have no fault: each number in them names
//! what is there, no type leads back to itself, unions are told apart, and each optional type has its default.
//! `make_value` is for defaults that are still to be found.
#![tactic(auto)]

mod doubling;
mod followed;
mod judging;
mod limits;
mod making;
mod parts;
mod records;
mod sameness;
mod seen;
mod types;

pub use doubling::doubled;
pub use followed::Followed;
pub use judging::judged;
pub use limits::fits;
pub use making::{MakeError, make, make_entry, make_value};
pub use sameness::types_are_one;
pub use seen::Seen;
pub use type_table::{
    Condition, Conditions, Members, ModelType, Properties, Property, Shape, Texts,
};
pub use types::{Types, chosen};
