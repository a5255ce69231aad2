ghost use Rattle.std.specs.Prelude.{◌≡◌, ◌≤◌, []};
ghost use Rattle.edge_core.specs.Faults.{HasRisen};

use crate::world::{EdgeError, World};
use list_core::Parts;
use snap_core::{Bytes, Txt};
use std::alloc::Global;
use std::io::{Print, Read};
use std::marker::Model;
use std::rt::Files;
use std::{fs, io};

/// The files of the system, and two streams as standard output and error. Which bytes they give
/// and take isn't told.
#[derive(Drop)]
pub struct RealWorld<F, O, E> {
    files: F,
    out: O,
    err: E,
    asked: Parts<Txt>,
    faults: u64,
}

impl<F, O, E> Model for RealWorld<F, O, E> {
    ghost use Rattle.edge_core.specs.World.{RealWorldState};

    ghost Value = { RealWorldState };

    ghost view = { λ w. record { asked = w.asked; fault_count = w.faults } };
}

// What a file gives up to the first byte beyond `most`.
fn read_past<F: Files>(files: &F, alloc: Global, name: &str, most: usize) -> io::Result<Vec<u8>> {
    let limit = (most as u64).saturating_add(1);
    let mut bytes = Vec::new(alloc);
    fs::open(files, name)?.take(limit).read_to_end(&mut bytes)?;
    Ok(bytes)
}

impl<F, O, E> RealWorld<F, O, E> {
    /// The files, and the streams that are standard output and error. No file is asked for and no
    /// fault is counted yet.
    pub fn new(alloc: Global, files: F, out: O, err: E) -> RealWorld<F, O, E>
        ensures { result ≡ record { asked = []; fault_count = 0 } }
    {
        RealWorld {
            files,
            out,
            err,
            asked: Parts::new(alloc),
            faults: 0,
        }
    }

    fn failure(&mut self) -> EdgeError
        ensures error { result ≡ EdgeError.Failed }
        ensures rises { HasRisen self.old.fault_count self.new.fault_count }
        ensures count { self.old.fault_count ≤ self.new.fault_count }
        ensures same_asked { self.new.asked ≡ self.old.asked }
    {
        self.faults = self.faults.saturating_add(1);
        EdgeError::Failed
    }
}

impl<F: Files, O: Print, E: Print> World for RealWorld<F, O, E> {
    ghost use Rattle.edge_core.specs.World.{told_of_system};

    ghost state = { told_of_system };

    fn read_file(&mut self, alloc: Global, name: &str, most: usize) -> Result<Bytes, EdgeError> {
        self.asked.push(Txt::copy(alloc, name)?)?;
        match read_past(&self.files, alloc, name, most) {
            Ok(bytes) if bytes.len() > most => Err(EdgeError::TooLong),
            Ok(bytes) => Ok(Bytes::from_vec(bytes)),
            Err(e) if e.kind() == io::ErrorKind::OutOfMemory => Err(EdgeError::Memory),
            Err(_) => Err(self.failure()),
        }
    }

    fn write_out(&mut self, piece: &[u8]) -> Result<(), EdgeError> {
        match self.out.write_all(piece) {
            Ok(()) => Ok(()),
            Err(_) => Err(self.failure()),
        }
    }

    fn write_err(&mut self, piece: &[u8]) -> Result<(), EdgeError> {
        match self.err.write_all(piece) {
            Ok(()) => Ok(()),
            Err(_) => Err(self.failure()),
        }
    }

    fn faults(&self) -> u64 {
        self.faults
    }
}
