//! Listening with receivers of any kind, which start with nothing saved.

ghost use Rattle.std.specs.Prelude.{◌≡◌, Err};
ghost use Rattle.nx_fec.specs.Transfers.{devices};
ghost use Rattle.nx_copies.specs.copies.Shares.{all_at_zero};
ghost use Rattle.nx_receiver.specs.air_file_runs.Listen.{ListensBy};
ghost use Rattle.nx_receiver.specs.declared.air_file_runs.listen_fault.ListenFault.TheVariants.{Memory};

use crate::air_file_runs::listen_fault::ListenFault;
use crate::air_file_runs::listening::logged::listen_lines;
use crate::air_file_runs::listening::{Report, close_log};
use crate::channel_receiver::ChannelReceiver;
use crate::listener::Listener;
use nx_fec::Counting;
use nx_memory::SavedSet;
use std::alloc::{AllocError, Global};
use std::io::{Read, Write};

/// Listens to an air file as `listen` does, with receivers of this kind: they say what is printed.
/// Each starts with an empty memory, at moment 0, and everything is selected. The log has an entry
/// for each copy that is printed. All that the lines so far print is written before each further
/// read. Entries stand in the log in the order in which their copies end; the end of the file
/// closes the channels 0, 1 and 2 in order. All memory is taken before the first read. No call on
/// reader or writer has failed before.
///
/// Faults are those of `listen`, and leave the same of the log.
pub fn listen_with<C: ChannelReceiver, R: Read, W: Write>(
    alloc: Global,
    reader: &mut Counting<R>,
    writer: &mut Counting<W>,
) -> Result<Report, ListenFault>
    requires reader { reader.old.failures ≡ 0 }
    requires writer { writer.old.failures ≡ 0 }
    ensures listens { ListensBy C.kind.printing all_at_zero
        (devices R.remaining W.contents reader.old reader.new writer.old writer.new) result }
    ensures memory { (error : AllocError) → result ≡ Err (Memory error)
        → (reader.new ≡ reader.old) × (writer.new ≡ writer.old) }
{
    let mut listener = Listener::<C>::starting(alloc, &SavedSet::new())?;
    let read = listen_lines(reader, writer, &mut listener)?;
    let report = close_log(listener, writer, read)?;
    Ok(report)
}
