ghost use Rattle.link_core.specs.Laws.{LinkCompletes, LinkLeads};

use crate::handler::Handler;
use http_front::{front_of_whole, nothing_is_partial, whole_is_only, whole_stays};

/// Whole requests on a link are answered one after another, each of them, in whatever pieces they
/// came, unless the door fails or memory runs out.
pub fn link_completes<A: Handler>()
    ensures { LinkCompletes A.replies }
{
    whole_is_only();
    whole_stays();
    front_of_whole();
    nothing_is_partial();
}

/// However a link ends, the state in the end is reached from the one in the beginning by requests
/// that the link's bytes begin with, each by a reply that it may get.
pub fn link_leads<A: Handler>()
    ensures { LinkLeads A.replies }
{}
