//! The bottom of every input: the one read of a device. No clause can say that it asks its device
//! once, since a contract knows which bytes came, and not by how many calls. A body that reads
//! again where the first read left room is proved too. It would keep each entry one read late: it
//! waits for the next piece of a feed, while the entry that the last one ended isn't written. The
//! same goes for a caller that reads twice; `Counting::read` is the only one.
//!
//! So these lines are read by people, with the question: is this one call? On the built program
//! `ci/power calls` counts one read(2) for each piece of a feed, and `ci/program` sees that an
//! entry is written while the feed stays open.
ghost use Rattle.std.specs.Io.{ReadsAtMost};
ghost use Rattle.std.specs.Io.KnownBytes.{ReadConsumes};

use std::io;
use std::io::Read;

/// Reads from a device, by one call of it.
#[inline(always)]
pub(crate) fn read_once<R: Read>(device: &mut R, buf: &mut [u8]) -> io::Result<usize>
    ensures bound { ReadsAtMost result buf.new }
    ensures bytes { ReadConsumes (R.remaining device.old) (R.remaining device.new) result buf.new }
{
    device.read(buf)
}
