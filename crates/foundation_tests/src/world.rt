use crate::streams::Only;
use edge_core::{EdgeError, RealWorld, World};
use std::alloc::Global;
use std::test::Fail;
use std::{env, fs, process};

/// Writes a file of at most five bytes to standard output, and then its name to standard error.
fn show<W: World>(world: &mut W, alloc: Global, name: &str) -> Result<(), EdgeError> {
    let contents = world.read_file(alloc, name, 5)?;
    world.write_out(contents.as_slice())?;
    world.write_err(name.as_bytes())
}

/// What comes of showing a file to streams that take just these bytes, and how many faults.
fn show_only(rt: HostRuntime, name: &str, out: &[u8], err: &[u8]) -> (Result<(), EdgeError>, u64) {
    let mut world = RealWorld::new(rt.alloc(), rt, Only(out), Only(err));
    let shown = show(&mut world, rt.alloc(), name);
    (shown, world.faults())
}

#[test]
fn the_real_world_reads_a_file_and_writes_each_stream(rt: HostRuntime) -> Result<(), Fail> {
    let alloc = rt.alloc();
    let folder = env::temp_dir(&rt)?;
    let path = format!(in alloc;
        "{}/foundation_tests_{}",
        folder.display(),
        process::id(rt.process())
    )?;
    let name = path.as_str();
    let cases: [(&str, &[u8], &[u8], Result<(), EdgeError>, u64); 5] = [
        ("hello", b"hello", name.as_bytes(), Ok(()), 0),
        ("hello", b"", name.as_bytes(), Err(EdgeError::Failed), 1),
        ("hello", b"hello", b"", Err(EdgeError::Failed), 1),
        ("", b"", name.as_bytes(), Ok(()), 0),
        (
            "hello!",
            b"hello",
            name.as_bytes(),
            Err(EdgeError::TooLong),
            0,
        ),
    ];
    for (contents, out, err, want, faults) in cases {
        fs::write(&rt, name, contents)?;
        let shown = show_only(rt, name, out, err);
        assert!(rt; shown == (want, faults), "{contents} {faults}");
    }
    fs::remove_file(&rt, name)?;
    let gone = show_only(rt, name, b"hello", name.as_bytes());
    assert!(rt; gone == (Err(EdgeError::Failed), 1));
    Ok(())
}
