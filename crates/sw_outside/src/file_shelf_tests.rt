//! The shelf of the system's files, over files that are there and files that aren't.
use crate::{FetchFault, FileShelf, Shelf};
use std::rt::Files;
use std::test::Fail;
use std::{env, fs, process};

/// The bytes of the file, which are more than one read of the system gives.
const COUNT: usize = 10_000;

/// Whether a fetch of a file of this byte has this outcome: a number of bytes, or a fault.
fn fetches<R: Files + AllocGlobal>(
    rt: &R,
    name: &str,
    limit: usize,
    outcome: Result<usize, FetchFault>,
) -> bool {
    match FileShelf::new(rt).fetch(rt.alloc(), name, limit) {
        Ok(bytes) => outcome == Ok(bytes.len()) && bytes.iter().all(|byte| *byte == b'x'),
        Err(fault) => outcome == Err(fault),
    }
}

/// Writes a file, fetches it and removes it.
fn written<R: Files + AllocGlobal>(rt: &R, path: &str) -> Result<(bool, bool), Fail> {
    let content = vec![in rt.alloc(); b'x'; COUNT]?;
    fs::write(rt, path, content.as_slice())?;
    let whole = fetches(rt, path, COUNT, Ok(COUNT));
    let above = fetches(rt, path, COUNT - 1, Err(FetchFault::TooLong));
    fs::remove_file(rt, path)?;
    Ok((whole, above))
}

#[test]
fn files_of_the_system(rt: HostRuntime) -> Result<(), Fail> {
    let folder = env::temp_dir(&rt)?;
    let number = process::id(rt.process());
    let path = format!(in rt.alloc(); "{}/sw_outside_{number}", folder.as_str())?;
    let (whole, above) = written(&rt, path.as_str())?;
    assert!(rt; whole, "a file within the limit");
    assert!(rt; above, "a file above the limit");
    Ok(())
}

/// A folder opens, and its read fails. So does that of the memory at no address, and who may not
/// open the file of that memory can't read it either.
#[test]
fn files_that_cannot_be_read(rt: HostRuntime) {
    for name in ["/no/such/file", "/", "/proc/self/mem"] {
        let failed = fetches(&rt, name, 10, Err(FetchFault::Failed));
        assert!(rt; failed, "a fetch of {name}");
    }
}

/// A file that is longer at each read.
#[test]
fn a_file_that_grows(rt: HostRuntime) {
    let long = fetches(&rt, "/dev/zero", COUNT, Err(FetchFault::TooLong));
    assert!(rt; long, "a file without an end");
}
