//! The types of a schema by their numbers, as they stand: what each is, what names stand for, which property is a
//! model's identifier, and which member of a union a value chooses.
//!
//! ```text
//! let table = Table::new(alloc, shapes, models, &order)?;      // names are followed once
//! let tagged = Tagged::new(alloc, table)?;                     // the tag of each union is found once
//! let shape = tagged.table().named_shape(TypeNo(4));
//! let member = chosen_at(&tagged, TypeNo(7), &value);
//! let apart = are_apart(alloc, tagged.table(), members)?;
//! ```
//!
//! Each call answers what its definition says of the table, whatever the table holds: numbers may name nothing, and
//! names may lead in a circle. Contracts see a table as its shapes and its models; what is kept beside them for speed
//! follows from these.
#![tactic(auto)]

mod apart;
mod identifiers;
mod names;
mod scalar_set;
mod scalars;
mod shape;
mod standing;
mod table;
mod tagged;
mod tags;
mod taken;
mod unions;

pub use apart::are_apart;
pub use identifiers::{identifier_under, is_keyed, own_identifier, target_of};
pub use scalars::takes;
pub use shape::{Condition, Conditions, Members, ModelType, Properties, Property, Shape, Texts};
pub use standing::{Standing, is_misplaced, misleads, standing_of};
pub use table::Table;
pub use tagged::Tagged;
pub use unions::{choose, chosen_at};
