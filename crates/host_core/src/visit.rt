use expr_core::Schema;
use http_front::Request;
use std::alloc::Global;

/// A request, and what answers it goes by.
#[derive(Drop)]
pub struct Visit<'a> {
    pub alloc: Global,
    pub schema: &'a Schema,
    pub request: &'a Request<'a>,
}
