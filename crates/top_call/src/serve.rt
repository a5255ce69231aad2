//! Serving a door by a schema.
ghost use Rattle.std.specs.Prelude.{◌≡◌, ◌≤◌, ◌⊎◌, false};
ghost use Rattle.edge_core.specs.Door.{asked_also};
ghost use Rattle.serve_core.specs.Serving.{port_of};
ghost use Rattle.expr_core.specs.Schema.{behaviours_shown};
ghost use Rattle.host_core.specs.Sound.{IsPlainSchema};
ghost use Rattle.top_call.specs.RunInside as inside;

use crate::answering::{Answerer, begin};
use crate::exit::Exit;
use action_laws::schemas_behave_plainly;
use edge_core::Door;
use expr_core::Schema;
use link_core::Room;
use serve_core::{Plan, ServeEnd, ends_have_causes, serve_door};
use std::alloc::Global;

/// Serves the links of a door by a schema, as a plan says, and answers how the program ends.
pub fn serve<D: Door>(alloc: Global, schema: Schema, door: &mut D, plan: Plan) -> Exit
    requires none_open { (D.state door.old).is_open ≡ false }
    ensures hosts { inside.Hosts (record {
      schema = schema;
      plan = plan;
      before = D.state door.old;
      after = D.state door.new;
    }) result }
    ensures plain { IsPlainSchema schema.types (behaviours_shown schema) }
    ensures exit { inside.IsOfServing result }
    ensures asked { ((D.state door.new).asked ≡ (D.state door.old).asked)
        ⊎ ((D.state door.new).asked ≡ asked_also (port_of plan) (D.state door.old).asked) }
    ensures none_open { (D.state door.new).is_open ≡ false }
    ensures count { (D.state door.old).fault_count ≤ (D.state door.new).fault_count }
{
    ends_have_causes::<Answerer>();
    schema_is_plain(&schema);
    let Ok(mut room) = Room::new(alloc) else {
        return Exit::Memory;
    };
    let Ok(mut answers) = begin(alloc, schema) else {
        return Exit::Memory;
    };
    exit_of(serve_door(alloc, &mut answers, door, &mut room, plan))
}

// The types of a schema have no fault, and its views and actions have plain constants. It does nothing.
fn schema_is_plain(schema: &Schema)
    ensures { IsPlainSchema schema.now.types (behaviours_shown schema.now) }
{
    schemas_behave_plainly();
    let root = schema.types().root();
    let _ = schema.view(root, "");
    let _ = schema.action(root, "");
}

// How the program ends where serving ended so.
fn exit_of(end: ServeEnd) -> Exit
    ensures { result ≡ inside.exit_of end }
{
    match end {
        ServeEnd::Done => Exit::Done,
        ServeEnd::Inside => Exit::Inside,
        ServeEnd::Memory => Exit::Memory,
        ServeEnd::Fault => Exit::DoorFailed,
    }
}
