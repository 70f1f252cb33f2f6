//! Readers and writers whose failed calls are counted.
ghost use Rattle.std.specs.Prelude.{◌≡◌, ◌+◌, ◌-◌, ◌^◌, ◌<◌, [], min, IfOk};
ghost use Rattle.std.specs.Io.{ReadsAtMost, WritesAtMost};
ghost use Rattle.std.specs.Io.KnownBytes.{ReadConsumes, WriteAppends, Keeps};
ghost use Rattle.nx_fec.specs.Transfers.{Counts};

use crate::devices::input::read_once;
use std::io;
use std::io::{Error, ErrorKind, Read, Write};
use std::marker::Model;
use std::mem::size_of;

/// A reader or a writer that counts the calls on it that failed. A write that takes no byte of a
/// piece that isn't empty has failed. Once the count is above 0, no call is passed on: each further
/// call fails, and is counted. The count stays at its greatest value.
#[derive(Drop)]
pub struct Counting<T> {
    inner: T,
    failures: u64,
}

impl<T> Model for Counting<T> {
    ghost use Rattle.nx_fec.specs.Transfers.{CountedDevice};
    ghost use Rattle.nx_fec.specs.private.CountedCode.{counted_code};

    ghost Value = { CountedDevice T };

    ghost coded = { counted_code T.code };

    ghost view = { λ c. record { inner = c.inner; failures = c.failures } };

    ghost inverse = { λ v. record { inner = v.inner; failures = v.failures } };
}

impl<T> Counting<T> {
    /// Wraps a reader or a writer, with no failure so far.
    pub fn new(inner: T) -> Self
        ensures inner { result.inner ≡ inner }
        ensures none { result.failures ≡ 0 }
    {
        prove!(size_of::<Counting<u64>>() == 16);
        Counting { inner, failures: 0 }
    }

    /// How many calls failed, at most the greatest u64.
    pub fn failures(&self) -> u64
        ensures { result ≡ self.now.failures }
    {
        self.failures
    }

    /// What was wrapped.
    pub fn into_inner(self) -> T
        ensures { result ≡ self.inner }
    {
        let Counting { inner, failures: _ } = self;
        inner
    }

    /// Counts a call that isn't passed on, and gives its error.
    fn refuse(&mut self) -> Error
        ensures inner { self.new.inner ≡ self.old.inner }
        ensures counted { self.new.failures ≡ min (self.old.failures + 1) (2 ^ 64 - 1) }
    {
        self.failures = self.failures.saturating_add(1);
        Error::from(ErrorKind::Other)
    }
}

impl<R: Read> Read for Counting<R> {
    ghost remaining = { λ c. R.remaining c.inner };

    fn read(&mut self, buf: &mut [u8]) -> io::Result<usize>
        ensures bound { ReadsAtMost result buf.new }
        ensures bytes { ReadConsumes (R.remaining self.old.inner)
            (R.remaining self.new.inner) result buf.new }
        ensures counted { Counts self.old self.new result }
    {
        if self.failures > 0 {
            return Err(self.refuse());
        }
        let outcome = read_once(&mut self.inner, buf);
        if outcome.is_err() {
            self.failures = 1;
        }
        outcome
    }
}

impl<W: Write> Write for Counting<W> {
    ghost contents = { λ c. W.contents c.inner };

    fn write(&mut self, buf: &[u8]) -> io::Result<usize>
        ensures bound { WritesAtMost result buf.now }
        ensures bytes { WriteAppends (W.contents self.old.inner)
            (W.contents self.new.inner) result buf.now }
        ensures counted { Counts self.old self.new result }
        ensures some { IfOk result (λ count. count ≡ 0 → buf.now ≡ []) }
    {
        if self.failures > 0 {
            return Err(self.refuse());
        }
        match self.inner.write(buf) {
            Ok(count) if count > 0 || buf.is_empty() => Ok(count),
            Ok(_) => {
                self.failures = 1;
                Err(Error::from(ErrorKind::WriteZero))
            }
            Err(error) => {
                self.failures = 1;
                Err(error)
            }
        }
    }

    fn flush(&mut self) -> io::Result<()>
        ensures bytes { Keeps (W.contents self.old.inner) (W.contents self.new.inner) }
        ensures counted { Counts self.old self.new result }
    {
        if self.failures > 0 {
            return Err(self.refuse());
        }
        let outcome = self.inner.flush();
        if outcome.is_err() {
            self.failures = 1;
        }
        outcome
    }
}
