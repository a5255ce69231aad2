//! `msthost` makes values by the types of a schema, behind HTTP.
#![tactic(auto)]

use edge_core::{RealDoor, RealWorld};
use list_core::Parts;
use snap_core::Txt;
use std::alloc::{AllocError, Global};
use std::process::ExitCode;
use std::rt::Env;
use std::{env, io};
use top_call::{Exit, host, report_exit};

fn main(rt: HostRuntime) -> ExitCode {
    let mut world = RealWorld::new(rt.alloc(), rt, rt.stdout(), rt.stderr());
    let mut door = RealDoor::new(rt, rt.stdin(), rt.stdout());
    let status = match given_words(&rt) {
        Ok(words) => host(rt.alloc(), words.as_slice(), &mut world, &mut door),
        Err(exit) => report_exit(&mut world, None, &exit),
    };
    ExitCode::from(status)
}

// The words behind the program's name. Words that aren't UTF-8 aren't in the grammar.
fn given_words<R: Env + AllocGlobal>(rt: &R) -> Result<Parts<Txt>, Exit> {
    match env::args(rt) {
        Ok(args) => copied(rt.alloc(), args).map_err(|_| Exit::Memory),
        Err(error) if error.kind() == io::ErrorKind::InvalidData => Err(Exit::Usage),
        Err(_) => Err(Exit::Memory),
    }
}

fn copied(alloc: Global, args: env::Args) -> Result<Parts<Txt>, AllocError> {
    let mut words = Parts::new(alloc);
    for word in args.skip(1) {
        words.push(Txt::from_string(word))?;
    }
    Ok(words)
}
