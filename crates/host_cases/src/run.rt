//! The run that a case asks for.
ghost use Rattle.std.specs.Prelude.{◌≡◌, IfOk, is_some, false};

use crate::case::{calls_of, number_of, words_of};
use crate::links::LinkCase;
use crate::slow_door::SlowDoor;
use edge_core::{Files, Inputs, MemoryDoor, MemoryWorld};
use snap_core::{Bytes, Txt};
use std::alloc::{AllocError, Global};
use top_call::host;

/// The room for standard output, and for standard error.
const WORLD_SPACE: usize = 1000;

/// What came of a run: the status, and the world and the door as it left them.
#[derive(Drop)]
pub struct Outcome {
    pub status: u8,
    pub world: MemoryWorld,
    pub door: MemoryDoor,
}

/// Runs the program as a case gives it, with reads of so many bytes at most.
pub fn outcome_of(
    alloc: Global,
    schema: Bytes,
    block: &str,
    links: &[LinkCase],
    cut: u32,
) -> Result<Outcome, AllocError> {
    let words = words_of(alloc, block)?;
    let mut world = world_of(alloc, schema, block)?;
    let mut door = door_of(alloc, block, links, cut)?;
    let status = status_of(alloc, words.as_slice(), &mut world, &mut door);
    Ok(Outcome {
        status,
        world,
        door: door.door,
    })
}

// Runs the program at a door of which no link is open, and answers its status.
fn status_of(
    alloc: Global,
    words: &[Txt],
    world: &mut MemoryWorld,
    door: &mut SlowDoor<MemoryDoor>,
) -> u8
    requires { is_some door.old.door.links.current ≡ false }
{
    host(alloc, words, world, door)
}

// A world whose one file is the schema.
fn world_of(alloc: Global, schema: Bytes, block: &str) -> Result<MemoryWorld, AllocError> {
    let mut files = Files::new(alloc);
    files.push((Txt::copy(alloc, "schema.json")?, schema))?;
    MemoryWorld::new(
        alloc,
        files,
        WORLD_SPACE,
        calls_of(alloc, block, "fail-world")?,
    )
}

// A door of the links of a case, of which none is open.
fn door_of(
    alloc: Global,
    block: &str,
    links: &[LinkCase],
    cut: u32,
) -> Result<SlowDoor<MemoryDoor>, AllocError>
    ensures { IfOk result (λ door. is_some door.door.links.current ≡ false) }
{
    let inputs = inputs_of(alloc, links)?;
    let cut = cut as usize;
    let space = number_of(block, "space", 100_000) as usize;
    let fails = calls_of(alloc, block, "fail-door")?;
    Ok(SlowDoor {
        door: MemoryDoor::new(alloc, inputs, cut.max(1), space, fails)?,
        most: number_of(block, "piece", 1000) as usize,
    })
}

// What the links bring.
fn inputs_of(alloc: Global, links: &[LinkCase]) -> Result<Inputs, AllocError> {
    let mut inputs = Inputs::new(alloc);
    for link in links {
        inputs.push(Bytes::from_slice(alloc, link.input.as_slice())?)?;
    }
    Ok(inputs)
}
