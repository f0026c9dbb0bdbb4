ghost use Rattle.std.specs.Prelude.{◌≡◌, ℕ, List, Option, ◌++◌, ◌<◌, ◌≤◌, length, take, option_map};
ghost use Rattle.std.specs.Prelude.{IfOk, OnOk, OnErr};
ghost use Rattle.sw_outside.specs.Rise.{Rose};

use thiserror::Error;

/// Why a put writes nothing.
#[derive(Clone, Copy, Debug, PartialEq, Eq, Error)]
pub enum SinkFault {
    /// The outside failed, and the sink counted it.
    #[error("the output cannot be written")]
    Failed,
}

/// Where output is written.
pub trait Sink {
    /// The bytes written so far; `None` where they are unknown.
    ghost written: { Self → Option (List ℕ) };

    /// The number of faults of the outside, in a counter of 64 bits that stays at its last value.
    ghost faults: { Self → ℕ };

    /// Writes a prefix of the piece that isn't empty, and returns its length.
    fn put(&mut self, piece: &[u8]) -> Result<usize, SinkFault>
        requires { 0 < length piece.now }
        ensures some { IfOk result (λ n. 0 < n) }
        ensures within { IfOk result (λ n. n ≤ length piece.now) }
        ensures written { IfOk result
            (λ n. written self.new
            ≡ option_map (λ bytes. bytes ++ take n piece.now) (written self.old)) }
        ensures nothing { OnErr result (written self.new ≡ written self.old) }
        ensures failed { OnErr result (Rose (faults self.old) (faults self.new)) }
        ensures steady { OnOk result (faults self.new ≡ faults self.old) }
        ensures never_falls { faults self.old ≤ faults self.new };
}
