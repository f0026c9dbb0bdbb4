//! A reader that fails after some bytes.
use crate::reading::{ReadFault, read_whole};
use std::alloc::Global;
use std::io::{self, ErrorKind, Read};

/// Returns one byte a read, and fails after its last byte.
#[derive(Drop)]
struct Short {
    left: u8,
}

impl Read for Short {
    fn read(&mut self, buffer: &mut [u8]) -> io::Result<usize> {
        if self.left == 0 || buffer.is_empty() {
            return Err(io::Error::from(ErrorKind::Other));
        }
        self.left -= 1;
        buffer[0] = self.left;
        Ok(1)
    }
}

/// Bytes of a reader that has three and then fails, up to a limit.
fn read_three(alloc: Global, limit: usize) -> (Result<bool, ReadFault>, Vec<u8>) {
    let mut bytes = Vec::new(alloc);
    let outcome = read_whole(&mut Short { left: 3 }, limit, &mut bytes);
    (outcome, bytes)
}

/// What was read before a fault is kept, and a fault that isn't come to is none.
#[test]
fn a_read_that_fails_in_between(rt: HostRuntime) {
    for (limit, wanted) in [(2, Ok(false)), (3, Err(ReadFault::Failed))] {
        let (outcome, bytes) = read_three(rt.alloc(), limit);
        assert!(rt; outcome == wanted, "the outcome within {limit} bytes");
        assert!(rt;
            bytes.as_slice() == [2, 1, 0].as_slice(),
            "the bytes within {limit} bytes"
        );
    }
}
