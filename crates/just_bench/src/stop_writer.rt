//! An output that stops at a limit.
ghost use Rattle.std.specs.Prelude.{◌≡◌, ◌≤◌, ◌<◌, ◌↔◌, [], false, length, IfOk, OnErr, IsErr};
ghost use Rattle.just_bench.specs.StopWriter.{room, taken, after_write, after_fault};

use just_parts::layers::{Output, WriteFailed};
use std::alloc::{AllocError, Global};
use std::marker::Model;

/// An output that takes as many bytes as it reserved when it was made, and then faults. It takes no more memory.
#[derive(Drop)]
pub struct StopWriter {
    bytes: Vec<u8>,
    limit: usize,
    failed: bool,
}

impl Model for StopWriter {
    ghost use Rattle.std.specs.Prelude.{◌≤◌, length, vec_capacity};
    ghost use Rattle.just_bench.specs.StopWriter.{Filled};

    ghost Value = { Filled };

    ghost view = { λ writer. record { written = writer.bytes.items; limit = writer.limit; failed = writer.failed } };

    ghost invariant = { λ writer. (length writer.bytes.items ≤ writer.limit) × (writer.limit ≤ vec_capacity writer.bytes) };
}

impl StopWriter {
    /// An output with room for `limit` bytes. The error is want of memory for them.
    pub fn new(alloc: Global, limit: usize) -> Result<StopWriter, AllocError>
        ensures { IfOk result (λ writer. writer ≡ record { written = []; limit = limit; failed = false }) }
    {
        Ok(StopWriter {
            bytes: Vec::with_capacity(alloc, limit)?,
            limit,
            failed: false,
        })
    }

    /// The bytes that were written so far, never more than the limit.
    pub fn written(&self) -> &[u8]
        ensures bytes { result.now ≡ self.now.written }
        ensures within { length result.now ≤ self.now.limit }
    {
        self.bytes.as_slice()
    }

    /// Whether a write faulted.
    pub fn has_failed(&self) -> bool
        ensures { result ≡ self.now.failed }
    {
        self.failed
    }
}

impl Output for StopWriter {
    ghost written = { λ writer. writer.written };

    ghost failed = { λ writer. writer.failed };

    fn write(&mut self, bytes: &[u8]) -> Result<usize, WriteFailed>
        ensures count { IfOk result (λ n. n ≡ taken self.old bytes.now) }
        ensures ok { IfOk result (λ _. self.new ≡ after_write self.old bytes.now) }
        ensures err { OnErr result (self.new ≡ after_fault self.old) }
        ensures faults { IsErr result ↔ ((0 < length bytes.now) × (room self.old ≡ 0)) }
    {
        let room = self.limit - self.bytes.len();
        if room == 0 && !bytes.is_empty() {
            self.failed = true;
            return Err(WriteFailed);
        }
        let count = room.min(bytes.len());
        let (front, _) = bytes.split_at(count);
        match self.bytes.extend_from_slice(front) {
            Ok(()) => Ok(count),
            Err(_) => unreachable!(),
        }
    }
}
