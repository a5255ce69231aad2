//! The command line.
ghost use Rattle.std.specs.Prelude.{◌≡◌, ◌≤◌, IfSome, option_map};
ghost use Rattle.top_call.specs.Words as specs;

use pointer_core::Pointer;
use serve_core::Plan;
use snap_core::Txt;

/// The largest number of a port.
const MOST_PORT: u32 = 65_535;

/// The most links that one run serves.
const MOST_LINKS: u32 = 1_000_000;

/// What the program is asked to do, with the name of the schema file.
#[derive(Clone, Copy, Debug)]
pub enum Command<'a> {
    /// Checks a schema file.
    Check(&'a str),
    /// Serves one link by a schema file.
    Run(&'a str),
    /// Serves so many links at a port by a schema file.
    Serve {
        name: &'a str,
        port: u16,
        links: u32,
    },
}

impl<'a> Command<'a> {
    /// The name of the schema file.
    pub fn name(self) -> &'a str
        ensures { result.now ≡ specs.name_in (specs.seen self.entry) }
    {
        match self {
            Command::Check(name) | Command::Run(name) | Command::Serve { name, .. } => name,
        }
    }

    /// What is served, if anything is.
    pub fn plan(self) -> Option<Plan>
        ensures { result ≡ specs.plan_of (specs.seen self.entry) }
    {
        match self {
            Command::Check(_) => None,
            Command::Run(_) => Some(Plan::Streams),
            Command::Serve { port, links, .. } => Some(Plan::Port { port, links }),
        }
    }
}

/// The command that the words are, where they are in the grammar.
pub fn command_of(words: &[Txt]) -> Option<Command<'_>>
    ensures { option_map specs.seen result ≡ specs.command_of words.now }
{
    match words {
        [word, name] if word.text() == "check" => Some(Command::Check(name.text())),
        [word, name] if word.text() == "run" => Some(Command::Run(name.text())),
        [word, name, port_key, port, links_key, links]
            if word.text() == "serve"
                && port_key.text() == "--port"
                && links_key.text() == "--links" => {
            serve_command(name.text(), port.text(), links.text())
        }
        _ => None,
    }
}

// The command to serve, where its numbers are in their ranges.
fn serve_command<'a>(name: &'a str, port: &str, links: &str) -> Option<Command<'a>>
    ensures { option_map specs.seen result ≡ specs.serve_of name.now
        (specs.number_in 65535 port.now) (specs.number_in 1000000 links.now) }
{
    match (number_in(port, MOST_PORT), number_in(links, MOST_LINKS)) {
        (Some(port), Some(links)) => Some(Command::Serve {
            name,
            port: port as u16,
            links,
        }),
        _ => None,
    }
}

// The number from 1 to `most` that a word spells.
fn number_in(word: &str, most: u32) -> Option<u32>
    ensures number { result ≡ specs.number_in most word.now }
    ensures within { IfSome result (λ n. n ≤ most) }
{
    match Pointer::index_of(word) {
        Some(n) if 1 <= n && n <= most => Some(n),
        _ => None,
    }
}
