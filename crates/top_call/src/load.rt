//! From the name of a schema file to the schema.
ghost use Rattle.std.specs.Prelude.{◌≡◌, ◌⊎◌, IsErrOf};
ghost use Rattle.edge_core.specs.World.{AsksFor};
ghost use Rattle.top_call.specs.RunInside as inside;

use crate::exit::Exit;
use edge_core::{EdgeError, World};
use expr_core::Schema;
use pointer_core::{Pointer, SchemaRule};
use schema_read::{SchemaError, read_schema};
use std::alloc::Global;

/// The longest schema file that is read, in bytes.
const MOST_FILE_BYTES: usize = 262_144;

/// Reads a schema file, or says how the program ends without one.
pub fn load<W: World>(alloc: Global, world: &mut W, name: &str) -> Result<Schema, Exit>
    ensures loads { inside.Loads name.now result (W.state world.old) (W.state world.new) }
    ensures asks { AsksFor name.now (W.state world.old) (W.state world.new)
        ⊎ (IsErrOf result Exit.Memory × (W.state world.new ≡ W.state world.old)) }
{
    match world.read_file(alloc, name, MOST_FILE_BYTES) {
        Ok(file) => schema_in(alloc, file.as_slice()),
        Err(EdgeError::Memory) => Err(Exit::Memory),
        Err(EdgeError::Failed | EdgeError::TooLong) => Err(Exit::Unread),
    }
}

// The schema that a file's bytes spell.
fn schema_in(alloc: Global, file: &[u8]) -> Result<Schema, Exit>
    ensures { inside.SchemaOf file.now result }
{
    match read_schema(alloc, file) {
        Ok(schema) => Ok(schema),
        Err(SchemaError::Memory) => Err(Exit::Memory),
        Err(SchemaError::Syntax) => Err(Exit::Syntax),
        Err(SchemaError::Refused { pointer, rule }) => Err(refusal(&pointer, rule)),
    }
}

// The end at a fault of a schema file.
fn refusal(pointer: &Pointer, rule: SchemaRule) -> Exit
    ensures { inside.IsRefusal pointer.now rule result }
{
    match pointer.print() {
        Ok(printed) => Exit::Refused {
            pointer: printed,
            rule,
        },
        Err(_) => Exit::Memory,
    }
}
