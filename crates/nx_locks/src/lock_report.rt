//! Showing the locks of an air file on channel 0: their report, written while the file is read.

ghost use Rattle.std.specs.Prelude.{◌≡◌};
ghost use Rattle.nx_fec.specs.Transfers.{devices};
ghost use Rattle.nx_locks.specs.Run.{ShowsLocks};

use crate::report_writer::ReportWriter;
use nx_fec::{AIR_LIMIT, Batch, Counting, LineReader, NextLine, write_on};
use nx_receiver::ListenFault;
use std::io::{Read, Write};

/// What a run that showed the locks of an air file read and counted.
#[derive(Clone, Copy, Debug, Drop, PartialEq, Eq)]
pub struct LocksReport {
    /// How many lines the file has.
    pub lines: u64,
    /// How many elements its lines have on channel 0.
    pub elements: u64,
    /// How many locks there are.
    pub locks: u64,
    /// How many headers stand in their texts.
    pub copies: u64,
}

/// Shows the locks of an air file of at most 268,435,456 bytes to its end, and writes their report.
/// It has for each lock a line that opens it, its running text, a line that closes it, and an empty
/// line; and one last line. They are the locks in the elements of channel 0: elements of other
/// channels change nothing. What the lines so far show is written before each further read. All
/// memory is taken before the first read. No call on reader or writer has failed before.
///
/// It reads the file as `listen` does, with the same faults, on whichever channel they stand; what
/// is selected changes nothing. The first fault in the order of the bytes ends the run; the line
/// that has it has no effect. After a fault of a line, `AirTooLong` and `Read`, what the whole
/// lines before it show is written, and an open lock isn't closed. After `Write` the first
/// `written` bytes of the report of the lines read whole by then are written, closed if the file
/// had ended.
pub fn locks<R: Read, W: Write>(
    reader: &mut Counting<R>,
    writer: &mut Counting<W>,
) -> Result<LocksReport, ListenFault>
    requires reader { reader.old.failures ≡ 0 }
    requires writer { writer.old.failures ≡ 0 }
    ensures { ShowsLocks
        (devices R.remaining W.contents reader.old reader.new writer.old writer.new) result }
{
    let mut report_writer = ReportWriter::new();
    let mut lines = LineReader::new(reader, AIR_LIMIT);
    let mut batch = Batch::new();
    loop {
        match lines.next() {
            Ok(NextLine::Line(kind)) => {
                if let Err(why) = report_writer.take(kind, lines.elements()) {
                    batch.send(writer)?;
                    let line = lines.lines();
                    return Err(ListenFault::of_refusal(line, why));
                }
                batch.give(writer, report_writer.shown())?;
            }
            Ok(NextLine::PieceOver) => batch.send(writer)?,
            Ok(NextLine::End) => {
                let report = report_writer.close(lines.lines());
                write_on(writer, batch.bytes_sent(), report_writer.shown())?;
                return Ok(report);
            }
            Err(fault) => {
                batch.send(writer)?;
                return Err(ListenFault::from(fault));
            }
        }
    }
}
