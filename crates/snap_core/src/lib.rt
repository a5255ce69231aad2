//! Values: what documents hold, what requests bring and what replies show.
//!
//! ```
//! let title = Snap::Text(Txt::copy(alloc, "Buy milk")?);
//! let copy = title.clone_in(alloc)?;
//! let same = copy.equal(&title);
//! let weight = title.weight(1_048_576);
//! ```
//!
//! A value is plain data to contracts: a copy is the value, `equal` is equality, and `weight` and `depth` stop
//! counting at the limit that they are given. The fields of a record stand in ascending order of their keys, so
//! that `find` looks them up by halves.
#![tactic(auto)]

mod ident;
mod lookup;
mod name;
mod number;
mod snap;
mod text;
mod whole;

pub use ident::Ident;
pub use lookup::{find, position, search};
pub use name::{Name, NameError, is_name};
pub use number::{ModelNo, NodeNo, TypeNo};
pub use snap::{Field, Fields, Items, Snap};
pub use text::{Bytes, Txt};
pub use whole::is_whole;
