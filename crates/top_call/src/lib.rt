//! The whole program as one call: words, a world and a door in, an exit status out.
//!
//! ```
//! let mut world = RealWorld::new(rt.alloc(), rt, rt.stdout(), rt.stderr());
//! let mut door = RealDoor::new(rt, rt.stdin(), rt.stdout());
//! let status = host(rt.alloc(), words.as_slice(), &mut world, &mut door);
//! ```
//!
//! Each status has its cause, which the laws of `causes` state one by one, and each byte that is
//! written is the one that is due. What was served is a run of requests to a host, of which the laws of
//! `host_laws` speak (`served_is_a_run`). No file is read but the schema file, and nothing is attached but
//! where the command says. What answers the requests is named and made in `answering`, and said in
//! `Answering.antt`, and nowhere else.
#![tactic(auto)]

mod answering;
mod causes;
mod exit;
mod hosting;
mod load;
mod program;
mod report;
mod serve;
mod words;

pub use causes::{answers_what_is_given, given_files_decide, statuses_have_causes};
pub use exit::Exit;
pub use hosting::served_is_a_run;
pub use program::host;
pub use report::report_exit;
pub use words::Command;
