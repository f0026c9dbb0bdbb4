ghost use Rattle.std.specs.Prelude.{◌≡◌, ℕ, ◌<◌, ◌≤◌, length, IfOk, OnOk, OnErr, option_map, ◌++◌};
ghost use Rattle.std.specs.Prelude.{take};
ghost use Rattle.sw_outside.specs.Rise.{Rose, raised};
ghost use Rattle.sw_outside.specs.Sink.{unknown};

use crate::sink::{Sink, SinkFault};
use std::marker::Model;

/// Standard output. The bytes written are unknown; contracts see it as its number of faults.
#[derive(Drop)]
pub struct StdSink<'a, R> {
    rt: &'a R,
    faults: u64,
}

impl<'a, R> Model for StdSink<'a, R> {
    ghost use Rattle.std.specs.Prelude.{ℕ};

    ghost Value = { ℕ };

    ghost view = { λ s. s.faults };
}

impl<'a, R: Print> StdSink<'a, R> {
    /// The standard output of `rt`, with no fault counted.
    pub fn new(rt: &'a R) -> StdSink<'a, R>
        ensures { result ≡ 0 }
    {
        StdSink { rt, faults: 0 }
    }
}

impl<R: Print> Sink for StdSink<'_, R> {
    ghost written = { λ _. unknown };

    ghost faults = { λ s. s };

    // One write of the system and no buffer: the bytes written have left the program when it
    // returns.
    fn put(&mut self, piece: &[u8]) -> Result<usize, SinkFault>
        requires { 0 < length piece.now }
        ensures one_fault { OnErr result (self.new ≡ raised self.old) }

        // The trait's clauses on known contents, which say nothing here.
        ensures written { IfOk result
            (λ n. unknown ≡ option_map (λ bytes. bytes ++ take n piece.now) unknown) }
        ensures nothing { OnErr result (unknown ≡ unknown) }

        ensures some { IfOk result (λ n. 0 < n) }
        ensures within { IfOk result (λ n. n ≤ length piece.now) }
        ensures failed { OnErr result (Rose self.old self.new) }
        ensures steady { OnOk result (self.new ≡ self.old) }
        ensures never_falls { self.old ≤ self.new }
    {
        match self.rt.write_some(piece) {
            Ok(count) if count > 0 => Ok(count),
            _ => {
                self.faults = self.faults.saturating_add(1);
                Err(SinkFault::Failed)
            }
        }
    }
}
