/// How a link ended.
#[derive(Clone, Copy, Debug, PartialEq, Eq)]
pub enum LinkEnd {
    /// Its input ended between requests.
    End,
    /// A reply closed it.
    Closed,
    /// Its input ended inside a request.
    Inside,
    /// Memory ran out, and the last reply says so.
    Memory,
    /// A call of the door failed.
    Fault,
}
