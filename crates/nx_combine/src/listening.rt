//! Listening to an air file, where the sendings of a message are taken together.

ghost use Rattle.std.specs.Prelude.{◌≡◌, Err};
ghost use Rattle.nx_fec.specs.Transfers.{devices};
ghost use Rattle.nx_copies.specs.copies.Shares.{all_at_zero};
ghost use Rattle.nx_combine.specs.CombinedPrinting.{combined};
ghost use Rattle.nx_receiver.specs.air_file_runs.Listen.{ListensBy};
ghost use Rattle.nx_receiver.specs.declared.air_file_runs.listen_fault.ListenFault.TheVariants.{Memory};

use crate::receiver::CombinedReceiver;
use nx_fec::Counting;
use nx_memory::RenewingRecall;
use nx_receiver::{ListenFault, Report, listen_with};
use std::alloc::{AllocError, Global};
use std::io::{Read, Write};

/// Listens to an air file as `nx_receiver::listen` does, and takes the sendings of a message
/// together. The log has an entry for each combined copy that is printed: the message as all its
/// sendings so far give it, printed again where it has become better. All that the lines so far
/// print is written before each further read. All memory is taken before the first read: some five
/// megabytes.
///
/// Faults are those of `listen`, and leave the same of the log.
pub fn listen_combined<R: Read, W: Write>(
    alloc: Global,
    reader: &mut Counting<R>,
    writer: &mut Counting<W>,
) -> Result<Report, ListenFault>
    requires reader { reader.old.failures ≡ 0 }
    requires writer { writer.old.failures ≡ 0 }
    ensures listens { ListensBy combined all_at_zero
        (devices R.remaining W.contents reader.old reader.new writer.old writer.new) result }
    ensures memory { (error : AllocError) → result ≡ Err (Memory error)
        → (reader.new ≡ reader.old) × (writer.new ≡ writer.old) }
{
    listen_with::<CombinedReceiver<RenewingRecall>, R, W>(alloc, reader, writer)
}
