use list_core::Parts;
use node_core::{Labelled, LoggedEdit};

/// What one call did to a tree: its edits, and the labelled snapshot before them.
#[derive(Debug, Drop)]
pub struct Call {
    pub edits: Parts<LoggedEdit>,
    pub before: Labelled,
}
