ghost use Rattle.std.specs.Prelude.{◌≡◌, ℕ, List, Option, [], ◌+◌, ◌<◌, ◌≤◌, length, take, vec_len};
ghost use Rattle.std.specs.Prelude.{◌↔◌, IsTrue, IfOk, OnOk, OnErr, IsErrOf, IfSome};
ghost use Rattle.std.specs.Io.{StartsWith};
ghost use Rattle.std.specs.Io.KnownBytes.{Consumes, Keeps, IsAtEnd};

use std::io::Read;

/// Why a file was not read.
#[derive(Clone, Copy, Debug, PartialEq, Eq)]
pub enum ReadFault {
    /// A read failed.
    Failed,
    /// Out of memory.
    Memory,
}

/// Reads a file up to its end, or up to one byte above the limit, into `bytes`. It returns whether
/// that is the whole file. After a fault, `bytes` has what was read before it.
pub fn read_whole<F: Read>(
    file: &mut F,
    limit: usize,
    bytes: &mut Vec<u8>,
) -> Result<bool, ReadFault>
    requires { bytes.old.items ≡ [] }
    ensures bound { vec_len bytes.new ≤ limit + 1 }
    ensures within { IfOk result (λ whole. IsTrue whole ↔ (vec_len bytes.new ≤ limit)) }
    ensures exact { IfOk result
        (λ whole. IfSome (F.remaining file.old) (λ all. IsTrue whole ↔ (length all ≤ limit))) }
    ensures same { IfOk result
        (λ whole. IsTrue whole → IfSome (F.remaining file.old) (λ all. bytes.new.items ≡ all)) }
    // The bytes of a file that is too long are its first ones.
    ensures prefix { OnOk result
        (IfSome (F.remaining file.old) (λ all. bytes.new.items ≡ take (limit + 1) all)) }
    // After a failed read, the bytes are all that the file gave; where memory ran out, they are the
    // first of them.
    ensures kept { IsErrOf result ReadFault.Failed
        → Consumes (F.remaining file.old) (F.remaining file.new) bytes.new.items }
    ensures start { OnErr result
        (IfSome (F.remaining file.old) (λ all. StartsWith all bytes.new.items)) }
{
    read_prefix(file, limit.saturating_add(1), bytes)?;
    Ok(bytes.len() <= limit)
}

/// Reads until it has `most` bytes or the file ends.
fn read_prefix<F: Read>(file: &mut F, most: usize, bytes: &mut Vec<u8>) -> Result<(), ReadFault>
    requires { bytes.old.items ≡ [] }
    ensures bound { vec_len bytes.new ≤ most }
    ensures prefix { OnOk result
        (IfSome (F.remaining file.old) (λ all. bytes.new.items ≡ take most all)) }
    ensures kept { IsErrOf result ReadFault.Failed
        → Consumes (F.remaining file.old) (F.remaining file.new) bytes.new.items }
    ensures start { OnErr result
        (IfSome (F.remaining file.old) (λ all. StartsWith all bytes.new.items)) }
{
    while bytes.len() < most {
        let want = most - bytes.len();
        if read_once(file, want, bytes)? == 0 {
            return Ok(());
        }
    }
    Ok(())
}

/// One read of at most `want` bytes, which are added after those read before. It returns their
/// number, which is 0 only at the end of the file.
fn read_once<F: Read>(file: &mut F, want: usize, bytes: &mut Vec<u8>) -> Result<usize, ReadFault>
    requires { 0 < want }
    ensures bound { IfOk result (λ n. n ≤ want) }
    ensures len { IfOk result (λ n. vec_len bytes.new ≡ vec_len bytes.old + n) }
    ensures stays { OnErr result (bytes.new.items ≡ bytes.old.items) }
    ensures keeps { IsErrOf result ReadFault.Failed
        → Keeps (F.remaining file.old) (F.remaining file.new) }
    ensures consumes { OnOk result ((all : Option (List ℕ))
        → Consumes all (F.remaining file.old) bytes.old.items
        → Consumes all (F.remaining file.new) bytes.new.items) }
    ensures end { IfOk result (λ n. n ≡ 0 → IsAtEnd (F.remaining file.new)) }
{
    let mut buffer = [0u8; 4096];
    let size = want.min(buffer.len());
    let part = &mut buffer[..size];
    let Ok(count) = file.read(part) else {
        return Err(ReadFault::Failed);
    };
    let Ok(()) = bytes.extend_from_slice(&part[..count]) else {
        return Err(ReadFault::Memory);
    };
    Ok(count)
}
