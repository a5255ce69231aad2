use expr_syntax::ViewNo;
use snap_core::{NodeNo, Txt};

/// Where evaluating is refused, without any path.
#[derive(Debug, Drop)]
pub enum Site {
    /// The frame of the statement or the condition that is evaluated.
    Frame,
    /// A view of a node.
    View(NodeNo, ViewNo),
    /// A property, an item or an entry of a node, by its token.
    Entry(NodeNo, Txt),
}
