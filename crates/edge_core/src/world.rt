ghost use Rattle.std.specs.Prelude.{◌≡◌, ◌≤◌, ◌<◌, ◌⊎◌, length, IfOk, IfErr, OnOk, OnErr, IfSome, IsSomeAnd, IsErrOf};
ghost use Rattle.edge_core.specs.World.{WorldState, WorldHasFailed, AsksFor, KeepsFiles, Gets, GetsPart, file_of};

use snap_core::Bytes;
use std::alloc::{AllocError, Global};
use thiserror::Error;

/// Why the outside gave no answer.
#[derive(Clone, Copy, Debug, PartialEq, Eq, Error)]
pub enum EdgeError {
    /// Memory ran out. It is no fault.
    #[error("out of memory")]
    Memory,
    /// The call failed, and was counted as a fault.
    #[error("the outside failed")]
    Failed,
    /// The file has more bytes than were asked for. It is no fault.
    #[error("the file is too long")]
    TooLong,
}

impl From<AllocError> for EdgeError {
    ghost use Rattle.edge_core.specs.declared.world.EdgeError.TheVariants.{Memory};

    ghost from_gives = { λ _ e. e ≡ Memory };

    fn from(_error: AllocError) -> EdgeError {
        EdgeError::Memory
    }
}

/// Files, standard output and standard error, as one state. Failures are counted, and a call
/// answers `Failed` only where it counted one.
pub trait World {
    /// What the world tells of its files, its streams, and the calls of it.
    ghost state: { Self → WorldState };

    /// The whole file, where it has at most `most` bytes: `TooLong` where it has more, `Failed`
    /// where it can't be read, and a fault is counted, `Memory` where memory runs out, which may be
    /// before the file is asked for.
    fn read_file(&mut self, alloc: Global, name: &str, most: usize) -> Result<Bytes, EdgeError>
        ensures ok { IfOk result (λ bytes.
            IfSome (state self.old).files (λ files. file_of files name.now ≡ Some bytes)) }
        ensures at_most { IfOk result (λ bytes. length bytes ≤ most) }
        ensures too_long { IsErrOf result EdgeError.TooLong →
            IfSome (state self.old).files (λ files.
            IsSomeAnd (file_of files name.now) (λ bytes. most < length bytes)) }
        ensures failed { IsErrOf result EdgeError.Failed →
            WorldHasFailed (state self.old) (state self.new) }
        ensures asks { AsksFor name.now (state self.old) (state self.new)
            ⊎ (IsErrOf result EdgeError.Memory × (state self.new ≡ state self.old)) };

    /// Writes the whole piece to standard output, or fails as `Failed` and has written a part of it,
    /// which may be none or all. A fault is counted.
    fn write_out(&mut self, piece: &[u8]) -> Result<(), EdgeError>
        ensures ok { OnOk result (Gets piece.now (state self.old).out (state self.new).out) }
        ensures error { IfErr result (λ e. e ≡ EdgeError.Failed) }
        ensures failed { OnErr result (WorldHasFailed (state self.old) (state self.new)) }
        ensures part { OnErr result (GetsPart piece.now (state self.old).out (state self.new).out) }
        ensures same_err { (state self.new).err ≡ (state self.old).err }
        ensures keeps { KeepsFiles (state self.old) (state self.new) };

    /// Writes the whole piece to standard error, or fails as `Failed` and has written a part of it,
    /// which may be none or all. A fault is counted.
    fn write_err(&mut self, piece: &[u8]) -> Result<(), EdgeError>
        ensures ok { OnOk result (Gets piece.now (state self.old).err (state self.new).err) }
        ensures error { IfErr result (λ e. e ≡ EdgeError.Failed) }
        ensures failed { OnErr result (WorldHasFailed (state self.old) (state self.new)) }
        ensures part { OnErr result (GetsPart piece.now (state self.old).err (state self.new).err) }
        ensures same_out { (state self.new).out ≡ (state self.old).out }
        ensures keeps { KeepsFiles (state self.old) (state self.new) };

    /// How many calls failed so far. The count stays at its largest number.
    fn faults(&self) -> u64
        ensures { result ≡ (state self.now).fault_count };
}
