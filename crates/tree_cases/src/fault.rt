//! Why a line comes to no value.
use patch_core::PatchError;
use pointer_core::{PointerError, Refusal};
use schema_read::SchemaError;
use snap_json::ReadError;
use std::alloc::AllocError;
use tree_core::TreeError;
use type_core::MakeError;

/// Why a line comes to no value.
#[derive(Drop)]
pub enum Fault {
    Memory,
    /// The line is no case.
    NoCase,
    Refused(Refusal),
}

impl From<AllocError> for Fault {
    fn from(_refused: AllocError) -> Fault {
        Fault::Memory
    }
}

impl From<TreeError> for Fault {
    fn from(error: TreeError) -> Fault {
        match error {
            TreeError::Memory => Fault::Memory,
            TreeError::Refused(refusal) => Fault::Refused(refusal),
        }
    }
}

impl From<MakeError> for Fault {
    fn from(error: MakeError) -> Fault {
        match error {
            MakeError::Memory => Fault::Memory,
            MakeError::Refused(refusal) => Fault::Refused(refusal),
        }
    }
}

impl From<ReadError> for Fault {
    fn from(error: ReadError) -> Fault {
        match error {
            ReadError::Memory => Fault::Memory,
            _ => Fault::NoCase,
        }
    }
}

impl From<SchemaError> for Fault {
    fn from(error: SchemaError) -> Fault {
        match error {
            SchemaError::Memory => Fault::Memory,
            _ => Fault::NoCase,
        }
    }
}

impl From<PointerError> for Fault {
    fn from(error: PointerError) -> Fault {
        match error {
            PointerError::Memory => Fault::Memory,
            _ => Fault::NoCase,
        }
    }
}

impl From<PatchError> for Fault {
    fn from(error: PatchError) -> Fault {
        match error {
            PatchError::Memory => Fault::Memory,
            _ => Fault::NoCase,
        }
    }
}
