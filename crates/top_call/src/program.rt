//! The top call.
ghost use Rattle.std.specs.Prelude.{◌≡◌, ◌≤◌, ◌↔◌, ◌⊎◌, ◌∷◌, [], false, Some, None, Contains, option_map};
ghost use Rattle.edge_core.specs.Door.{DoorState};
ghost use Rattle.top_call.specs.Words.{command_of, seen, plan_of};
ghost use Rattle.top_call.specs.Words as commands;
ghost use Rattle.top_call.specs.Run as runs;
ghost use Rattle.top_call.specs.RunInside as inside;

use crate::exit::Exit;
use crate::load::load;
use crate::report::report_exit;
use crate::serve::serve;
use crate::words::{Command, command_of};
use edge_core::{Door, World};
use serve_core::Plan;
use snap_core::Txt;
use std::alloc::Global;

/// Runs the program on these words, in this world and at this door, and answers its exit status.
///
/// `check SCHEMA` reads the schema file and tells whether it is a schema. `run SCHEMA` reads it and
/// serves the link of standard input and output: its requests are answered, one after another.
/// `serve SCHEMA --port N --links N` serves so many links at a port of 127.0.0.1, one after another.
/// Statuses: 0 where all went well; 2 for other words; 3 where the file isn't read; 4 where it is no
/// schema; 6 where the link of `run` failed, or a port can't be listened on; 7 where memory ran out,
/// which may happen at any time; 9 where the input of `run` ends inside a request; 10 where what is to
/// be told couldn't be written.
pub fn host<W: World, D: Door>(alloc: Global, words: &[Txt], world: &mut W, door: &mut D) -> u8
    requires none_open { (D.state door.old).is_open ≡ false }
    // The run asks for its schema file, comes to an exit that has its cause, and leaves the door as
    // that exit says. Then the exit is told and gives its status, or there was something to tell and a
    // writing failed, and the status is 10. The laws of `causes` say what follows.
    ensures ends { runs.Ends (record {
      command = command_of words.now;
      world_before = W.state world.old;
      world_after = W.state world.new;
      door_before = D.state door.old;
      door_after = D.state door.new;
    }) result }
    ensures grammar { (command : commands.Command)
        → (command_of words.now ≡ Some command) ↔ commands.AreWordsOf words.now command }
    ensures statuses { Contains (0 ∷ 2 ∷ 3 ∷ 4 ∷ 6 ∷ 7 ∷ 9 ∷ 10 ∷ []) result }
    // The door is touched by a command that serves alone, and only once its schema is read.
    ensures untouched { ((result ≡ 2) ⊎ ((result ≡ 3) ⊎ (result ≡ 4))) → door.new ≡ door.old }
    ensures untouched_unless_serving { ¬ (runs.IsServing (command_of words.now)) → door.new ≡ door.old }
    // No file is asked for but the schema file, and nothing is attached but where the command says.
    ensures asked_files { runs.AsksForNoOther (command_of words.now)
        (W.state world.old).asked (W.state world.new).asked }
    ensures asked_port { runs.AttachesByPlan (command_of words.now)
        (D.state door.old).asked (D.state door.new).asked }
    ensures files { (W.state world.new).files ≡ (W.state world.old).files }
    ensures none_open { (D.state door.new).is_open ≡ false }
    ensures door_count { (D.state door.old).fault_count ≤ (D.state door.new).fault_count }
    ensures world_count { (W.state world.old).fault_count ≤ (W.state world.new).fault_count }
{
    let command = command_of(words);
    let exit = run(alloc, command, world, door);
    report_exit(world, command, &exit)
}

// Runs a command, and answers how the program ends.
fn run<W: World, D: Door>(
    alloc: Global,
    command: Option<Command>,
    world: &mut W,
    door: &mut D,
) -> Exit
    requires none_open { (D.state door.old).is_open ≡ false }
    ensures causes { runs.Causes (record {
      command = option_map seen command.entry;
      world_before = W.state world.old;
      world_after = W.state world.new;
      door_before = D.state door.old;
      door_after = D.state door.new;
    }) result }
    ensures door { runs.LeavesDoor (record {
      command = option_map seen command.entry;
      world_before = W.state world.old;
      world_after = W.state world.new;
      door_before = D.state door.old;
      door_after = D.state door.new;
    }) result }
    ensures asks { runs.AsksForSchema (option_map seen command.entry) result
        (W.state world.old) (W.state world.new) }
    ensures asked_port { runs.AttachesByPlan (option_map seen command.entry)
        (D.state door.old).asked (D.state door.new).asked }
    ensures untouched { inside.IsEarly result → door.new ≡ door.old }
    ensures untouched_unless_serving { ¬ (runs.IsServing (option_map seen command.entry))
        → door.new ≡ door.old }
    ensures none_open { (D.state door.new).is_open ≡ false }
    ensures door_count { (D.state door.old).fault_count ≤ (D.state door.new).fault_count }
{
    let Some(command) = command else {
        return Exit::Usage;
    };
    match command.plan() {
        None => check(alloc, world, command),
        Some(plan) => serve_by(alloc, world, command, door, plan),
    }
}

// Checks a schema file.
fn check<W: World>(alloc: Global, world: &mut W, command: Command) -> Exit
    requires { plan_of (seen command) ≡ None }
    ensures causes { (door_before : DoorState) → (door_after : DoorState) → door_after ≡ door_before → runs.Causes (record {
      command = Some (seen command.entry);
      world_before = W.state world.old;
      world_after = W.state world.new;
      door_before = door_before;
      door_after = door_after;
    }) result }
    ensures asks { runs.AsksForSchema (Some (seen command.entry)) result
        (W.state world.old) (W.state world.new) }
    ensures before_door { inside.IsBeforeDoor result }
{
    match load(alloc, world, command.name()) {
        Ok(_) => Exit::Checked,
        Err(exit) => exit,
    }
}

// Serves by a schema file.
fn serve_by<W: World, D: Door>(
    alloc: Global,
    world: &mut W,
    command: Command,
    door: &mut D,
    plan: Plan,
) -> Exit
    requires none_open { (D.state door.old).is_open ≡ false }
    requires plan { plan_of (seen command) ≡ Some plan }
    ensures causes { runs.Causes (record {
      command = Some (seen command.entry);
      world_before = W.state world.old;
      world_after = W.state world.new;
      door_before = D.state door.old;
      door_after = D.state door.new;
    }) result }
    ensures door { runs.LeavesDoor (record {
      command = Some (seen command.entry);
      world_before = W.state world.old;
      world_after = W.state world.new;
      door_before = D.state door.old;
      door_after = D.state door.new;
    }) result }
    ensures asks { runs.AsksForSchema (Some (seen command.entry)) result
        (W.state world.old) (W.state world.new) }
    ensures asked_port { runs.AttachesByPlan (Some (seen command.entry))
        (D.state door.old).asked (D.state door.new).asked }
    ensures untouched { inside.IsEarly result → door.new ≡ door.old }
    ensures none_open { (D.state door.new).is_open ≡ false }
    ensures door_count { (D.state door.old).fault_count ≤ (D.state door.new).fault_count }
{
    match load(alloc, world, command.name()) {
        Ok(schema) => serve(alloc, schema, door, plan),
        Err(exit) => exit,
    }
}
