ghost use Rattle.std.specs.Prelude.{◌≡◌, ◌≤◌, ◌<◌, ◌↔◌, ◌⊎◌, [], length, IfOk, IfErr, IsTrue, IsErrOf, IsSomeAnd, is_err};
ghost use Rattle.std.specs.Option.{option_copied};
ghost use Rattle.edge_core.specs.World.{file_of, read_fails, write_fails, after_read, after_out, after_err};

use crate::fault_plan::{Calls, FaultPlan};
use crate::filled::FilledRoom;
use crate::world::{EdgeError, World};
use list_core::Parts;
use snap_core::{Bytes, Txt};
use std::alloc::{AllocError, Global};
use std::marker::Model;

/// Pairs of a name and contents, of which the first of a name is its file.
pub type Files = Parts<(Txt, Bytes)>;

/// A world in memory, which tells all that it holds and fails at the calls that it is told.
#[derive(Debug, Drop)]
pub struct MemoryWorld {
    files: Files,
    out: FilledRoom,
    err: FilledRoom,
    asked: Parts<Txt>,
    plan: FaultPlan,
}

impl Model for MemoryWorld {
    ghost use Rattle.std.specs.Prelude.{◌≡◌};
    ghost use Rattle.edge_core.specs.World.{MemoryWorldState};

    ghost Value = { MemoryWorldState };

    ghost view = { λ w. record {
      files = w.files;
      out = w.out.bytes;
      err = w.err.bytes;
      asked = w.asked;
      space = w.out.space;
      faults = w.plan;
    } };

    ghost invariant = { λ w. w.err.space ≡ w.out.space };
}

fn find<'a>(files: &'a [(Txt, Bytes)], name: &str) -> Option<&'a Bytes>
    ensures { option_copied result ≡ file_of files.now name.now }
{
    for file in files {
        if file.0.text() == name {
            return Some(&file.1);
        }
    }
    None
}

fn copy_at_most(alloc: Global, contents: &Bytes, most: usize) -> Result<Bytes, EdgeError>
    ensures ok { IfOk result (λ bytes. bytes ≡ contents.now) }
    ensures too_long { IsErrOf result EdgeError.TooLong ↔ (most < length contents.now) }
    ensures not_failed { ¬ IsErrOf result EdgeError.Failed }
{
    if contents.len() > most {
        return Err(EdgeError::TooLong);
    }
    Ok(Parts::from_slice(alloc, contents.as_slice())?)
}

impl MemoryWorld {
    /// A world with these files and nothing written. `space` is the room in bytes for standard
    /// output, and as much again for standard error. `fails` are the numbers of the calls that
    /// fail, counted over `read_file`, `write_out` and `write_err`. Fails for want of memory alone.
    pub fn new(
        alloc: Global,
        files: Files,
        space: usize,
        fails: Calls,
    ) -> Result<MemoryWorld, AllocError>
        ensures { IfOk result (λ world. world ≡ record {
          files = files;
          out = [];
          err = [];
          asked = [];
          space = space;
          faults = record { calls = 0; count = 0; failing = fails };
        }) }
    {
        Ok(MemoryWorld {
            files,
            out: FilledRoom::new(alloc, space)?,
            err: FilledRoom::new(alloc, space)?,
            asked: Parts::new(alloc),
            plan: FaultPlan::new(fails),
        })
    }

    /// What was written to standard output.
    pub fn out(&self) -> &[u8]
        ensures { result.now ≡ self.now.out }
    {
        self.out.as_slice()
    }

    /// What was written to standard error.
    pub fn err(&self) -> &[u8]
        ensures { result.now ≡ self.now.err }
    {
        self.err.as_slice()
    }

    /// As `World::read_file`. A name that isn't among the files is `Failed`, and is counted. Where
    /// memory runs out before the file is asked for, all is as before.
    pub fn read_file(&mut self, alloc: Global, name: &str, most: usize) -> Result<Bytes, EdgeError>
        ensures ok { IfOk result (λ bytes. file_of self.old.files name.now ≡ Some bytes) }
        ensures at_most { IfOk result (λ bytes. length bytes ≤ most) }
        ensures failed { IsErrOf result EdgeError.Failed → IsTrue (read_fails self.old name.now) }
        ensures fails { IsTrue (read_fails self.old name.now) →
            IsErrOf result EdgeError.Failed ⊎ IsErrOf result EdgeError.Memory }
        ensures too_long { IsErrOf result EdgeError.TooLong →
            IsSomeAnd (file_of self.old.files name.now) (λ bytes. most < length bytes) }
        ensures after { (self.new ≡ after_read self.old name.now)
            ⊎ (IsErrOf result EdgeError.Memory × (self.new ≡ self.old)) }
        ensures count { self.old.faults.count ≤ self.new.faults.count }
    {
        self.asked.push(Txt::copy(alloc, name)?)?;
        let found = find(self.files.as_slice(), name);
        let fails = self.plan.fails_next(found.is_none());
        match found {
            Some(contents) if !fails => copy_at_most(alloc, contents, most),
            _ => Err(EdgeError::Failed),
        }
    }

    /// As `World::write_out`. A piece that has no place in the room fails.
    pub fn write_out(&mut self, piece: &[u8]) -> Result<(), EdgeError>
        ensures failed { is_err result ≡ write_fails self.old self.old.out piece.now }
        ensures error { IfErr result (λ e. e ≡ EdgeError.Failed) }
        ensures after { self.new ≡ after_out self.old piece.now }
        ensures count { self.old.faults.count ≤ self.new.faults.count }
    {
        if self.plan.fails_next(!self.out.has_place(piece)) {
            return Err(EdgeError::Failed);
        }
        self.out.append(piece);
        Ok(())
    }

    /// As `World::write_err`. A piece that has no place in the room fails.
    pub fn write_err(&mut self, piece: &[u8]) -> Result<(), EdgeError>
        ensures failed { is_err result ≡ write_fails self.old self.old.err piece.now }
        ensures error { IfErr result (λ e. e ≡ EdgeError.Failed) }
        ensures after { self.new ≡ after_err self.old piece.now }
        ensures count { self.old.faults.count ≤ self.new.faults.count }
    {
        if self.plan.fails_next(!self.err.has_place(piece)) {
            return Err(EdgeError::Failed);
        }
        self.err.append(piece);
        Ok(())
    }

    /// As `World::faults`.
    pub fn faults(&self) -> u64
        ensures { result ≡ self.now.faults.count }
    {
        self.plan.count()
    }
}

impl World for MemoryWorld {
    ghost use Rattle.edge_core.specs.World.{told_by};

    ghost state = { told_by };

    fn read_file(&mut self, alloc: Global, name: &str, most: usize) -> Result<Bytes, EdgeError> {
        MemoryWorld::read_file(self, alloc, name, most)
    }

    fn write_out(&mut self, piece: &[u8]) -> Result<(), EdgeError> {
        MemoryWorld::write_out(self, piece)
    }

    fn write_err(&mut self, piece: &[u8]) -> Result<(), EdgeError> {
        MemoryWorld::write_err(self, piece)
    }

    fn faults(&self) -> u64 {
        MemoryWorld::faults(self)
    }
}
