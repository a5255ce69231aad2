//! What is served, and how serving ends.
ghost use Rattle.std.specs.Prelude.{◌≡◌};
ghost use Rattle.serve_core.specs.Serving as serving;

use link_core::LinkEnd;

/// Which links are served.
#[derive(Clone, Copy, Debug, PartialEq, Eq)]
pub enum Plan {
    /// The one link of standard input and output.
    Streams,
    /// So many links at a port of 127.0.0.1, one after another.
    Port { port: u16, links: u32 },
}

/// How serving ended.
#[derive(Clone, Copy, Debug, PartialEq, Eq)]
pub enum ServeEnd {
    /// So many links ended, or no link was left.
    Done,
    /// The input of the standard streams ended inside a request.
    Inside,
    /// Memory ran out, and the last reply says so.
    Memory,
    /// The door failed where it was to attach or to open a link, or at the standard streams.
    Fault,
}

impl Plan {
    /// Where the door attaches.
    pub(crate) fn port(self) -> Option<u16>
        ensures { result ≡ serving.port_of self }
    {
        match self {
            Plan::Streams => None,
            Plan::Port { port, .. } => Some(port),
        }
    }

    /// How many links are taken at most.
    pub(crate) fn links(self) -> u32
        ensures { result ≡ serving.most_links self }
    {
        match self {
            Plan::Streams => 1,
            Plan::Port { links, .. } => links,
        }
    }

    /// How serving ends by the end of a link, if it does.
    pub(crate) fn stopped_by(self, end: LinkEnd) -> Option<ServeEnd>
        ensures { result ≡ serving.stopped_by self end }
    {
        match (self, end) {
            (_, LinkEnd::Memory) => Some(ServeEnd::Memory),
            (Plan::Streams, LinkEnd::Inside) => Some(ServeEnd::Inside),
            (Plan::Streams, LinkEnd::Fault) => Some(ServeEnd::Fault),
            _ => None,
        }
    }
}
