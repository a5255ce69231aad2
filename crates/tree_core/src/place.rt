use snap_core::{NodeNo, Snap, Txt};

/// Where a tree is read or written.
#[derive(Debug, Drop)]
pub enum Place {
    /// A node itself.
    Whole(NodeNo),
    /// A property of a model, by its name.
    Prop(NodeNo, Txt),
    /// An item of an array, by its index.
    Item(NodeNo, u32),
    /// A value of a map, by its key.
    Key(NodeNo, Txt),
}

/// What is written at a place.
#[derive(Debug, Drop)]
pub enum Change {
    /// Another value for what stands there. A map's key may be new.
    Set(Snap),
    /// A new item before the one at the index. At a property or a key it sets the value.
    Insert(Snap),
    /// Nothing: what stands there goes.
    Remove,
}
