ghost use Rattle.std.specs.Prelude.{◌≡◌, Some, [], ◌++◌, ◌<◌, ◌≤◌, ◌↔◌, length, take, IsTrue};
ghost use Rattle.std.specs.Prelude.{IsErr, IfOk, OnOk, OnErr};
ghost use Rattle.sw_outside.specs.MemSink.{SinkState, put_fails, put_length};
ghost use Rattle.sw_outside.specs.Rise.{Rose, raised};

use crate::sink::{Sink, SinkFault};
use std::alloc::{AllocError, Global};
use std::marker::Model;

/// A sink in memory, with room for a number of bytes that is fixed when it is made. Its puts are
/// numbered from 0; the number stays at 2^64 - 1.
#[derive(Drop)]
pub struct MemSink {
    bytes: Vec<u8>,
    step: usize,
    fails: Vec<u64>,
    room: usize,
    number: u64,
    faults: u64,
}

impl Model for MemSink {
    ghost use Rattle.std.specs.Prelude.{◌<◌, ◌≤◌, vec_len, vec_capacity};
    ghost use Rattle.sw_outside.specs.MemSink.{SinkState};

    ghost Value = { SinkState };

    ghost view = { λ s. record {
      bytes = s.bytes.items;
      step = s.step;
      fails = s.fails.items;
      room = s.room;
      number = s.number;
      faults = s.faults;
    } };

    ghost invariant = { λ s.
        (0 < s.step) × (vec_len s.bytes ≤ s.room) × (s.room ≤ vec_capacity s.bytes) };
}

impl MemSink {
    /// A sink that holds at most `room` bytes and writes at most `step` in one put, and whose puts
    /// with a number in `fails` fail. It allocates the room for all of them.
    pub fn new(
        alloc: Global,
        step: usize,
        fails: &[u64],
        room: usize,
    ) -> Result<MemSink, AllocError>
        requires { 0 < step }
        ensures { IfOk result (λ sink. sink ≡ record {
          bytes = [];
          step = step;
          fails = fails.now;
          room = room;
          number = 0;
          faults = 0;
        }) }
    {
        Ok(MemSink {
            bytes: Vec::with_capacity(alloc, room)?,
            step,
            fails: Vec::from_slice(alloc, fails)?,
            room,
            number: 0,
            faults: 0,
        })
    }

    /// The bytes written so far.
    pub fn bytes(&self) -> &[u8]
        ensures { result.now ≡ self.now.bytes }
    {
        self.bytes.as_slice()
    }
}

impl Sink for MemSink {
    ghost written = { λ s. Some s.bytes };

    ghost faults = { λ s. s.faults };

    fn put(&mut self, piece: &[u8]) -> Result<usize, SinkFault>
        requires { 0 < length piece.now }

        // When it fails, and how many bytes it writes.
        ensures fails { IsErr result ↔ IsTrue (put_fails self.old) }
        ensures part { IfOk result (λ n. n ≡ put_length self.old (length piece.now)) }

        // The sink after a put.
        ensures after_ok { IfOk result (λ n. self.new ≡ record self.old {
          bytes = self.old.bytes ++ take n piece.now;
          number = raised self.old.number;
        }) }
        ensures after_failed { OnErr result (self.new ≡ record self.old {
          number = raised self.old.number;
          faults = raised self.old.faults;
        }) }

        ensures some { IfOk result (λ n. 0 < n) }
        ensures within { IfOk result (λ n. n ≤ length piece.now) }
        ensures written { IfOk result
            (λ n. Some self.new.bytes ≡ Some (self.old.bytes ++ take n piece.now)) }
        ensures nothing { OnErr result (Some self.new.bytes ≡ Some self.old.bytes) }
        ensures failed { OnErr result (Rose self.old.faults self.new.faults) }
        ensures steady { OnOk result (self.new.faults ≡ self.old.faults) }
        ensures never_falls { self.old.faults ≤ self.new.faults }
    {
        let left = self.room - self.bytes.len();
        let fails = left == 0 || self.fails.contains(&self.number);
        self.number = self.number.saturating_add(1);
        if fails {
            self.faults = self.faults.saturating_add(1);
            return Err(SinkFault::Failed);
        }
        let part = piece.len().min(self.step).min(left);
        self.bytes.extend_from_slice(&piece[..part]).unwrap();
        Ok(part)
    }
}
