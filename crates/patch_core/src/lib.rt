//! Patches: changes of a value at one place, each of which can be taken back.
//!
//! ```text
//! let mut patches = Patches::new(alloc);
//! patches.push(Patch { op: PatchOp::Replace, path, value: Some(now), old: Some(before) })?;
//! apply(alloc, &mut document, &patches.as_slice()[0])?;
//! let back = reversed(alloc, &patches)?;
//! let shown = print_patches(alloc, &back)?;
//! ```
//!
//! What `apply` leaves is exactly what its definition says, and after an error the value is as it was. Where a
//! patch fits a value (it names what it changes, as it is), its inverse fits what it leads to and leads back;
//! so do the inverses of a list, last first. A list that was printed reads back, but for its old values.
#![tactic(auto)]

mod application;
mod error;
mod fields;
mod items;
mod laws;
mod patch;
mod patches;
mod printing;
mod reading;

pub use application::apply;
pub use error::PatchError;
pub use laws::{changes_are_taken_back, inverse_leads_back, printed_reads_back, reads_once};
pub use patch::{Patch, PatchOp, inverse};
pub use patches::{Patches, reversed};
pub use printing::print_patches;
pub use reading::read_patches;
