//! A counted device makes each call once, and none after a failure.

ghost use Rattle.std.specs.Prelude.{◌≡◌, IfOk};

use nx_fec::{Counting, RunFault, WriteFault, decode_run, write_out};
use std::io;
use std::io::{Error, ErrorKind, Read, Write};

/// A device whose first call fails, or none, and all others succeed. It counts its calls.
#[derive(Drop)]
struct Recovering {
    fails: bool,
    /// The most bytes that a read gives.
    most: usize,
    calls: u64,
}

impl Recovering {
    fn answer(&mut self, count: usize) -> io::Result<usize>
        ensures { IfOk result (λ done. done ≡ count) }
    {
        self.calls = self.calls.saturating_add(1);
        if self.fails && self.calls == 1 {
            return Err(Error::from(ErrorKind::Other));
        }
        Ok(count)
    }
}

impl Read for Recovering {
    fn read(&mut self, buf: &mut [u8]) -> io::Result<usize> {
        self.answer(buf.len().min(self.most))
    }
}

impl Write for Recovering {
    fn write(&mut self, buf: &[u8]) -> io::Result<usize> {
        self.answer(buf.len())
    }

    fn flush(&mut self) -> io::Result<()> {
        self.answer(0)?;
        Ok(())
    }
}

fn device(fails: bool) -> Counting<Recovering>
    ensures { result.failures ≡ 0 }
{
    Counting::new(Recovering {
        fails,
        most: usize::MAX,
        calls: 0,
    })
}

#[test]
fn no_read_after_a_failure(rt: HostRuntime) {
    let mut reader = device(true);
    for read in 0..3 {
        assert!(rt; reader.read(&mut [0; 4]).is_err(), "read {read}");
    }
    assert_eq!(rt; reader.failures(), 3);
    assert_eq!(rt; reader.into_inner().calls, 1);
}

#[test]
fn no_write_after_a_failure(rt: HostRuntime) {
    let mut writer = device(true);
    assert!(rt; writer.write(b"A").is_err());
    assert!(rt; writer.write(b"A").is_err());
    assert!(rt; writer.flush().is_err());
    assert_eq!(rt; writer.failures(), 3);
    assert_eq!(rt; writer.into_inner().calls, 1);
    let mut writer = device(true);
    assert!(rt; writer.flush().is_err());
    assert!(rt; writer.flush().is_err());
    assert!(rt; writer.write(b"A").is_err());
    assert_eq!(rt; writer.failures(), 3);
    assert_eq!(rt; writer.into_inner().calls, 1);
}

#[test]
fn each_call_is_made_once(rt: HostRuntime) {
    let mut sound = device(false);
    assert!(rt; sound.flush().is_ok());
    assert_eq!(rt; sound.write(b"AB").ok(), Some(2));
    assert_eq!(rt; sound.read(&mut [0; 4]).ok(), Some(4));
    assert_eq!(rt; sound.failures(), 0);
    assert_eq!(rt; sound.into_inner().calls, 3);
    // A read that leaves room is one call too.
    let mut short = Counting::new(Recovering {
        fails: false,
        most: 3,
        calls: 0,
    });
    assert_eq!(rt; short.read(&mut [0; 4]).ok(), Some(3));
    assert_eq!(rt; short.into_inner().calls, 1);
}

/// After a failed read the writer isn't called either, and a failed write is made once.
#[test]
fn runs_over_failing_devices(rt: HostRuntime) {
    let (mut reader, mut writer) = (device(true), device(false));
    let outcome = decode_run(rt.alloc(), &mut reader, &mut writer);
    assert_eq!(rt; outcome, Err(RunFault::Read));
    assert_eq!(rt;
        (reader.into_inner().calls, writer.into_inner().calls),
        (1, 0)
    );
    let mut writer = device(true);
    let fault = write_out(&mut writer, b"A").err();
    assert_eq!(rt; fault, Some(WriteFault { written: 0 }));
    assert_eq!(rt; writer.into_inner().calls, 1);
}
