ghost use Rattle.std.specs.Prelude.{◌≡◌};
ghost use Rattle.top_call.specs.Exit.{exit_code};

use pointer_core::SchemaRule;
use snap_core::Txt;

/// How the program ends.
#[derive(Debug, Drop)]
pub enum Exit {
    /// The links were served.
    Done,
    /// The schema file is a schema.
    Checked,
    /// The words aren't in the grammar of the command line.
    Usage,
    /// The schema file wasn't read.
    Unread,
    /// The schema file is no JSON.
    Syntax,
    /// The schema file's first fault, with the printed pointer to its place.
    Refused { pointer: Txt, rule: SchemaRule },
    /// The link of the standard streams failed, or links couldn't be opened.
    DoorFailed,
    /// Memory ran out.
    Memory,
    /// The input ended inside a request.
    Inside,
}

impl Exit {
    /// The exit status of the process.
    pub fn code(&self) -> u8
        ensures { result ≡ exit_code self.now }
    {
        match self {
            Exit::Done | Exit::Checked => 0,
            Exit::Usage => 2,
            Exit::Unread => 3,
            Exit::Syntax | Exit::Refused { .. } => 4,
            Exit::DoorFailed => 6,
            Exit::Memory => 7,
            Exit::Inside => 9,
        }
    }
}
