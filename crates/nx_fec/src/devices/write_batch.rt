//! Bytes that are gathered for one write.
ghost use Rattle.std.specs.Prelude.{◌≡◌, ◌+◌, ◌≤◌, Ok, length, take, ℕ, List, [], ◌++◌, Option, OnOk, MatchResult};
ghost use Rattle.nx_fec.specs.Transfers.{FailsOnce, WroteSome};
ghost use Rattle.nx_fec.specs.air_files.LineRuns.{HasGiven};

use crate::air_files::bounded_bytes::BoundedBytes;
use crate::devices::counting::Counting;
use crate::devices::writing::write_on;
use crate::fault::WriteFault;
use std::io::Write;
use std::marker::Model;
use std::mem::size_of;

/// How many bytes wait at most.
const BATCH_BYTES: usize = 32_768;

/// Bytes that wait to be written, and the count of those that were written before them, at most the
/// greatest u64.
#[derive(Drop)]
pub struct Batch {
    waiting: BoundedBytes<BATCH_BYTES>,
    sent: u64,
}

impl Model for Batch {
    ghost use Rattle.nx_fec.specs.air_files.LineRuns.{Waiting};

    ghost Value = { Waiting };

    ghost view = { λ b. record { bytes = b.waiting; sent = b.sent } };

    ghost inverse = { λ v. record { waiting = v.bytes; sent = v.sent } };
}

impl Batch {
    /// No bytes, and none written.
    pub fn new() -> Self
        ensures bytes { result.bytes ≡ [] }
        ensures sent { result.sent ≡ 0 }
    {
        prove!(size_of::<Batch>() == 32_784);
        Batch {
            waiting: BoundedBytes::new(),
            sent: 0,
        }
    }

    /// How many bytes were written, at most the greatest u64.
    pub fn bytes_sent(&self) -> u64
        ensures { result ≡ self.now.sent }
    {
        self.sent
    }

    /// Gives bytes to be written. Where there is no room for them, those that wait are written, and
    /// so are they themselves where they are more than may wait. Where a write failed, the fault
    /// says how many bytes were written.
    #[inline(always)]
    pub fn give<W: Write>(
        &mut self,
        writer: &mut Counting<W>,
        bytes: &[u8],
    ) -> Result<(), WriteFault>
        requires { writer.old.failures ≡ 0 }
        ensures bytes { (first : Option (List ℕ)) (before : List ℕ)
            → HasGiven first (W.contents writer.old.inner) self.old before → MatchResult result
            (λ _. HasGiven first (W.contents writer.new.inner) self.new (before ++ bytes.now))
            (λ fault. WroteSome first (W.contents writer.new.inner)
            (before ++ bytes.now) fault.written) }
        ensures counts { FailsOnce writer.new result }
    {
        if bytes.len() <= BATCH_BYTES - self.waiting.len() {
            self.waiting.append(bytes);
            return Ok(());
        }
        self.send_and_give(writer, bytes)
    }

    /// Writes the bytes that wait, and then gives these as `give` does.
    // A call of its own, so that `give` is little where it is inlined.
    #[inline(never)]
    fn send_and_give<W: Write>(
        &mut self,
        writer: &mut Counting<W>,
        bytes: &[u8],
    ) -> Result<(), WriteFault>
        requires { writer.old.failures ≡ 0 }
        ensures bytes { (first : Option (List ℕ)) (before : List ℕ)
            → HasGiven first (W.contents writer.old.inner) self.old before → MatchResult result
            (λ _. HasGiven first (W.contents writer.new.inner) self.new (before ++ bytes.now))
            (λ fault. WroteSome first (W.contents writer.new.inner)
            (before ++ bytes.now) fault.written) }
        ensures counts { FailsOnce writer.new result }
    {
        self.send(writer)?;
        if bytes.len() <= BATCH_BYTES {
            self.waiting.append(bytes);
        } else {
            self.sent = write_on(writer, self.sent, bytes)?;
        }
        Ok(())
    }

    /// Writes the bytes that wait. Where none does, the writer isn't called.
    pub fn send<W: Write>(&mut self, writer: &mut Counting<W>) -> Result<(), WriteFault>
        requires { writer.old.failures ≡ 0 }
        ensures bytes { (first : Option (List ℕ)) (before : List ℕ)
            → HasGiven first (W.contents writer.old.inner) self.old before → MatchResult result
            (λ _. HasGiven first (W.contents writer.new.inner) self.new before)
            (λ fault. WroteSome first (W.contents writer.new.inner) before fault.written) }
        ensures empty { OnOk result (self.new.bytes ≡ []) }
        ensures idle { self.old.bytes ≡ [] → (result ≡ Ok tt) × (writer.new ≡ writer.old) }
        ensures counts { FailsOnce writer.new result }
    {
        if self.waiting.len() == 0 {
            return Ok(());
        }
        self.sent = write_on(writer, self.sent, self.waiting.as_slice())?;
        self.waiting.clear();
        Ok(())
    }
}
