ghost use Rattle.std.specs.Prelude.{◌≡◌, OnOk, OnErr};
ghost use Rattle.sw_outside.specs.Rise.{Rose};
ghost use Rattle.sw_check_parts.specs.Written.{Appended, IsPrefixWritten};

use sw_outside::{Sink, SinkFault};

/// Hands the bytes to the sink, piece by piece, until all are written or a put fails.
pub fn write_all<K: Sink>(out: &mut K, bytes: &[u8]) -> Result<(), SinkFault>
    ensures whole { OnOk result (Appended bytes.now (K.written out.old) (K.written out.new)) }
    ensures prefix { OnErr result
        (IsPrefixWritten bytes.now (K.written out.old) (K.written out.new)) }
    ensures steady { OnOk result (K.faults out.new ≡ K.faults out.old) }
    ensures failed { OnErr result (Rose (K.faults out.old) (K.faults out.new)) }
{
    let mut rest = bytes;
    while !rest.is_empty() {
        let n = out.put(rest)?;
        (_, rest) = rest.split_at(n);
    }
    Ok(())
}
