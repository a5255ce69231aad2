//! What the program tells of its end.
ghost use Rattle.std.specs.Prelude.{◌≡◌, ◌++◌, codes, OnOk, OnErr, option_map};
ghost use Rattle.std.specs.List.{flat_map};
ghost use Rattle.edge_core.specs.World.{WorldHasFailed, KeepsFiles, Gets, GetsPart};
ghost use Rattle.top_call.specs.Words.{seen};
ghost use Rattle.top_call.specs.Exit as exits;
ghost use Rattle.top_call.specs.Exit.{told_err, told_out};
ghost use Rattle.top_call.specs.Report as reports;

use crate::exit::Exit;
use crate::words::Command;
use edge_core::{EdgeError, World};

/// The status where a message or an answer couldn't be written.
const UNTOLD: u8 = 10;

const USAGE: &str =
    "usage: msthost check SCHEMA | run SCHEMA [--db FILE] | serve SCHEMA --port N --links N [--db FILE] | demo N";

/// Tells how the run of a command ended, and answers the exit status: the exit's own, or 10 where
/// there was something to tell and it couldn't be told.
pub fn report_exit<W: World>(world: &mut W, command: Option<Command>, exit: &Exit) -> u8
    ensures reports { reports.Reports
        (record { command = option_map seen command.entry; exit = exit.now; status = result })
        (W.state world.old) (W.state world.new) }
    ensures keeps { KeepsFiles (W.state world.old) (W.state world.new) }
{
    match tell(world, command, exit) {
        Ok(()) => exit.code(),
        Err(_) => UNTOLD,
    }
}

// Writes what an exit tells.
fn tell<W: World>(world: &mut W, command: Option<Command>, exit: &Exit) -> Result<(), EdgeError>
    ensures err { OnOk result (Gets (told_err (option_map seen command.entry) exit.now)
        (W.state world.old).err (W.state world.new).err) }
    ensures out { OnOk result (Gets (told_out exit.now) (W.state world.old).out (W.state world.new).out) }
    ensures due { OnErr result (reports.IsTold exit.now) }
    ensures err_part { OnErr result (GetsPart (told_err (option_map seen command.entry) exit.now)
        (W.state world.old).err (W.state world.new).err) }
    ensures out_part { OnErr result (GetsPart (told_out exit.now)
        (W.state world.old).out (W.state world.new).out) }
    ensures failed { OnErr result (WorldHasFailed (W.state world.old) (W.state world.new)) }
    ensures keeps { KeepsFiles (W.state world.old) (W.state world.new) }
{
    match exit {
        Exit::Done => Ok(()),
        Exit::Checked => world.write_out(b"ok\n"),
        Exit::Usage => say(world, &[USAGE]),
        Exit::Unread => say(world, &["cannot read ", file_named(command)]),
        Exit::Syntax => say(world, &["schema: syntax"]),
        Exit::Refused { pointer, rule } => say_fault(world, pointer.text(), rule.name()),
        Exit::DoorFailed => say(world, &["link failed"]),
        Exit::Memory => say(world, &["out of memory"]),
        Exit::Inside => say(world, &["input ended inside a request"]),
    }
}

// The name of the file that a command asks for.
fn file_named(command: Option<Command<'_>>) -> &str
    ensures { result.now ≡ exits.file_named (option_map seen command.entry) }
{
    match command {
        Some(command) => command.name(),
        None => "",
    }
}

// Writes the message of a schema's fault.
fn say_fault<'a, W: World>(world: &mut W, pointer: &'a str, rule: &'a str) -> Result<(), EdgeError>
    ensures err { OnOk result (Gets
        (codes "schema " ++ pointer.now ++ codes " " ++ rule.now ++ codes "\n")
        (W.state world.old).err (W.state world.new).err) }
    ensures part { OnErr result (GetsPart
        (codes "schema " ++ pointer.now ++ codes " " ++ rule.now ++ codes "\n")
        (W.state world.old).err (W.state world.new).err) }
    ensures failed { OnErr result (WorldHasFailed (W.state world.old) (W.state world.new)) }
    ensures out { (W.state world.new).out ≡ (W.state world.old).out }
    ensures keeps { KeepsFiles (W.state world.old) (W.state world.new) }
{
    say(world, &["schema ", pointer, " ", rule])
}

// Writes a line of these pieces to standard error.
fn say<W: World>(world: &mut W, pieces: &[&str]) -> Result<(), EdgeError>
    ensures err { OnOk result (Gets (flat_map (λ piece. piece.now) pieces.now ++ codes "\n")
        (W.state world.old).err (W.state world.new).err) }
    ensures part { OnErr result (GetsPart (flat_map (λ piece. piece.now) pieces.now ++ codes "\n")
        (W.state world.old).err (W.state world.new).err) }
    ensures failed { OnErr result (WorldHasFailed (W.state world.old) (W.state world.new)) }
    ensures out { (W.state world.new).out ≡ (W.state world.old).out }
    ensures keeps { KeepsFiles (W.state world.old) (W.state world.new) }
{
    for piece in pieces {
        world.write_err(piece.as_bytes())?;
    }
    world.write_err(b"\n")
}
