ghost use Rattle.std.specs.Prelude.{◌≤◌, IfOk, length};
ghost use Rattle.sw_check_parts.specs.Course.{Fetched};
ghost use Rattle.sw_check_parts.specs.Leaves.{Does, seen};

use crate::PROGRAM_LIMIT;
use crate::outcome::too_long;
use crate::stop::Stop;
use std::alloc::Global;
use sw_list::ListOf;
use sw_outside::{FetchFault, Shelf};

/// The bytes of a file. One of more than `limit` bytes is refused.
pub fn fetch<S: Shelf>(
    alloc: Global,
    name: &str,
    limit: usize,
    shelf: &mut S,
) -> Result<ListOf<u8>, Stop>
    requires { PROGRAM_LIMIT ≤ limit }
    ensures done { Does (Fetched name.now limit)
        (seen S.known S.received S.faults shelf.old) result
        (seen S.known S.received S.faults shelf.new) }
    ensures within { IfOk result (λ text. length text ≤ limit) }
{
    match shelf.fetch(alloc, name, limit) {
        Ok(text) => Ok(ListOf::from_vec(text)),
        Err(FetchFault::TooLong) => Err(Stop::Refused(too_long(alloc))),
        Err(FetchFault::Failed) => Err(Stop::NotRead),
        Err(FetchFault::Memory) => Err(Stop::Memory),
    }
}
