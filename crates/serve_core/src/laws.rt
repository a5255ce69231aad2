ghost use Rattle.serve_core.specs.Laws.{DoorCompletes, DoorLeads, FaultsAreCounted, InsideIsOfStreams, DoorIsLeft};

use link_core::{Handler, link_completes, link_leads};

/// Whole requests on the links of a door are answered one after another, each of them, in whatever
/// pieces they came, unless the door fails or memory runs out.
pub fn door_completes<A: Handler>()
    ensures { DoorCompletes A.replies }
{
    link_completes::<A>();
}

/// Why serving ends as it does, and how it leaves the door.
pub fn ends_have_causes<A: Handler>()
    ensures fault { FaultsAreCounted A.replies }
    ensures inside { InsideIsOfStreams A.replies }
    ensures door { DoorIsLeft A.replies }
{}

/// However serving ends, the state in the end is reached from the one in the beginning by requests,
/// one after another, each by a reply that it may get.
pub fn door_leads<A: Handler>()
    ensures { DoorLeads A.replies }
{
    link_leads::<A>();
}
