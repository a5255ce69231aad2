//! Reading a tree of nodes that keep their identity, and settling it.
//!
//! ```
//! let n = resolved(&root, &types, user, &identifier);
//! let kind = kind_at(&root, n);
//! let title = show(alloc, &root, &Pointer::parse(alloc, "/todos/0/title")?)?;
//! let owner = follow(alloc, &root, &types, &Pointer::parse(alloc, "/todos/0/owner")?)?;
//! let Settled { value, edits } = settle(alloc, &types, &root)?;
//! ```
//!
//! Nothing is copied to be read: what gives a value, a pointer or a place takes memory for that alone, and the other
//! calls take none. Frozen values and references aren't entered. Settling's edits lead from the tree to the one without
//! its loose references, and back again with all nodes.
#![tactic(auto)]

mod clearing;
mod gathering;
mod held;
mod identifiers;
mod loose;
mod nodes;
mod places;
mod pointers;
mod settled;
mod settling;
mod showing;
mod typing;

pub use clearing::Edits;
pub use held::{Held, held_at};
pub use identifiers::resolved;
pub use nodes::{depth_to, key_at, kind_at, node_of, size_at};
pub use places::{part_at_place, part_of, raw};
pub use pointers::{index_below, path_to, way_along};
pub use settling::{Settled, settle, settling_leads};
pub use showing::{entry_place, follow, path_of, place_at, show, show_node};
pub use typing::{referred_by, type_at};
