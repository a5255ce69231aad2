use snap_core::{Ident, ModelNo, NodeNo, Txt};

/// What a view read. A view's answer stays the same while none of its cells is touched.
#[derive(Debug, Drop)]
pub enum Cell {
    /// What a model's property holds.
    Prop(NodeNo, Txt),
    /// Which items an array has, or which entries a map, and what stands there.
    Shape(NodeNo),
    /// The path of a node.
    Place(NodeNo),
    /// A node's snapshot.
    Whole(NodeNo),
    /// Which node of a model has an identifier.
    Known(ModelNo, Ident),
}
