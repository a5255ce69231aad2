/// Which model of a schema, counted from 0.
#[derive(Clone, Copy, Debug, PartialEq, Eq)]
pub struct ModelNo(pub usize);

/// Which type of a schema, counted from 0.
#[derive(Clone, Copy, Debug, PartialEq, Eq)]
pub struct TypeNo(pub usize);

/// Which node of a document's tree. No two nodes that ever stood in one tree have the same number.
#[derive(Clone, Copy, Debug, PartialEq, Eq)]
pub struct NodeNo(pub usize);
