//! The shelf and the sink that never fail.
use crate::{FetchFault, Shelf, Sink, SteadyShelf, SteadySink};
use std::test::Fail;

/// Fetches of a file of five bytes and of one that isn't there: names, limits, and what comes of
/// them.
const FETCHES: [(&str, usize, Result<&[u8], FetchFault>); 4] = [
    ("a.swift", 5, Ok(b"bytes")),
    ("a.swift", 4, Err(FetchFault::TooLong)),
    ("b.swift", 5, Ok(b"")),
    ("b.swift", 0, Ok(b"")),
];

#[test]
fn one_file(rt: HostRuntime) -> Result<(), Fail> {
    let mut shelf = SteadyShelf::new(rt.alloc());
    shelf.add("a.swift", b"bytes")?;
    for (name, limit, wanted) in &FETCHES {
        let fetched = shelf.fetch(rt.alloc(), name, *limit);
        let given = match &fetched {
            Ok(bytes) => Ok(bytes.as_slice()),
            Err(fault) => Err(*fault),
        };
        assert!(rt; given == *wanted, "{name} within {limit} bytes");
    }
    Ok(())
}

#[test]
fn whole_pieces(rt: HostRuntime) {
    assert!(rt; SteadySink::new().put(b"piece") == Ok(5));
}
