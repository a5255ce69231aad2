//! What lies outside the program: files and standard streams, and the links that bring requests.
//!
//! ```
//! let mut world = MemoryWorld::new(alloc, files, 200, Calls::new(alloc))?;
//! let schema = world.read_file(alloc, "schema.json", 262_144)?;
//! let mut door = MemoryDoor::new(alloc, inputs, 7, 1000, Calls::new(alloc))?;
//! door.attach(None)?;
//! while door.accept()? { serve(&mut door)?; door.shut(); }
//! ```
//!
//! Each trait tells one state, which holds what was asked for and how many calls failed, and contents
//! where the object may tell them. An object in memory tells all, exactly, and fails at the calls that
//! it is told; those of the system tell no contents. A call fails only where it counted a fault.
#![tactic(auto)]

mod door;
mod fault_plan;
mod filled;
mod memory_door;
mod memory_link;
mod memory_world;
mod real_door;
mod real_world;
mod world;

pub use door::{AskedPort, Door, DoorFault};
pub use fault_plan::Calls;
pub use memory_door::{Inputs, MemoryDoor};
pub use memory_world::{Files, MemoryWorld};
pub use real_door::RealDoor;
pub use real_world::RealWorld;
pub use world::{EdgeError, World};
