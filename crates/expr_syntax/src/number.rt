/// Which view of a schema, counted from 0.
#[derive(Clone, Copy, Debug, PartialEq, Eq)]
pub struct ViewNo(pub usize);

/// Which action of a schema, counted from 0.
#[derive(Clone, Copy, Debug, PartialEq, Eq)]
pub struct ActionNo(pub usize);
