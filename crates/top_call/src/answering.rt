//! What answers the requests of a schema: it is named and made here alone.
ghost use Rattle.list_core.specs.Outcome.{Gives};
ghost use Rattle.top_call.specs.Answering.{start};

use expr_core::Schema;
use host_core::Host;
use std::alloc::{AllocError, Global};

/// What answers requests.
pub(crate) type Answerer = Host;

/// What answers by this schema, before the first request.
pub(crate) fn begin(alloc: Global, schema: Schema) -> Result<Answerer, AllocError>
    ensures { Gives result (start schema) }
{
    Host::new(alloc, schema)
}
