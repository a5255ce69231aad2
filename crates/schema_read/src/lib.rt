//! Schema files: the schema that the bytes of a file spell, or the file's first fault and its place.
//!
//! ```text
//! match read_schema(alloc, &bytes) {
//!     Ok(schema) => serve(schema.types(), schema.history()),
//!     Err(error) => println!(rt; "{error}")?,     // schema /types/Todo/model name
//! }
//! ```
//!
//! Unless memory runs out, the answer is the one schema that the bytes spell, or the one fault that comes
//! first in them, or that they are no JSON: `read_schema` has the order of faults, and the laws beside it
//! say that no two of these answers are right.
#![tactic(auto)]

mod assemble;
mod astray;
mod error;
mod laws;
mod read;
mod shapes;

pub use error::SchemaError;
pub use laws::{file_is_one_schema, first_fault_is_one, schema_has_no_fault};
pub use read::read_schema;
