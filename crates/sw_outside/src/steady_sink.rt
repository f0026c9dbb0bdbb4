ghost use Rattle.std.specs.Prelude.{◌≡◌, ◌<◌, ◌≤◌, ◌++◌, length, take, Ok, IfOk, OnErr, option_map};
ghost use Rattle.sw_outside.specs.Rise.{Rose};
ghost use Rattle.sw_outside.specs.Sink.{unknown};

use crate::sink::{Sink, SinkFault};

/// A sink that writes each piece whole and keeps none of it. It counts no fault.
#[derive(Drop)]
pub struct SteadySink;

impl SteadySink {
    /// Such a sink.
    pub fn new() -> SteadySink {
        SteadySink
    }
}

impl Sink for SteadySink {
    ghost written = { λ _. unknown };

    ghost faults = { λ _. 0 };

    fn put(&mut self, piece: &[u8]) -> Result<usize, SinkFault>
        requires { 0 < length piece.now }
        ensures whole { result ≡ Ok (length piece.now) }

        // The trait's clauses, which say nothing more here.
        ensures some { IfOk result (λ n. 0 < n) }
        ensures within { IfOk result (λ n. n ≤ length piece.now) }
        ensures written { IfOk result
            (λ n. unknown ≡ option_map (λ bytes. bytes ++ take n piece.now) unknown) }
        ensures failed { OnErr result (Rose 0 0) }
    {
        Ok(piece.len())
    }
}
