use snap_core::{ModelNo, TypeNo};

/// What a node is: a record that a model made, or an array or a map with the type of its parts.
#[derive(Debug, Clone, Copy)]
pub enum Kind {
    Model(ModelNo),
    Array(TypeNo),
    Map(TypeNo),
}
