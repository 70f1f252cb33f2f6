//! A watch from its start to its answer.

ghost use Rattle.std.specs.Prelude.{◌≡◌, ◌≤◌, ℕ, List, [], Option};
ghost use Rattle.nx_envelope.specs.Moment.{last_moment};
ghost use Rattle.nx_fec.specs.Transfers.{CountedDevice, devices};
ghost use Rattle.nx_receiver.specs.Listener.{HearsBy, starts_by};
ghost use Rattle.nx_watch.specs.CutTold.{TellsOfSomeCut};
ghost use Rattle.nx_watch.specs.LineRun.{HasTold, TellsOfLines};
ghost use Rattle.nx_watch.specs.Stamps.{HasStampedReads, IsFresh, counted_of, cut_notes, stamps_of};
ghost use Rattle.nx_watch.specs.Watch.{PrintsLoggable};
ghost use Rattle.nx_watch.specs.private.Keeping.{HasKept};
ghost use Rattle.nx_watch.specs.private.LoggingListener.{HasRun};

use crate::kept_log::keeper::Keeper;
use crate::line_run::{WatchEnd, watch_lines};
use crate::lines::any_scanner::MOST_BYTES;
use crate::lines::line_effects::StartMoments;
use crate::logging_listener::LoggingListener;
use crate::stamped::StampedReader;
use crate::watch_fault::WatchFault;
use crate::watch_report::WatchReport;
use arrayvec::ArrayVec;
use nx_copies::MAX_ENTRY;
use nx_fec::Counting;
use nx_kept::DiskFile;
use nx_receiver::{ChannelReceiver, Listener};
use std::io::{Read, Write};

/// Watches the lines of an input with these receivers, and answers how that ended; and the file.
/// `first` is the moments with which it starts.
pub(crate) fn run_watch<R: Read, D: DiskFile + Drop, C: ChannelReceiver, W: Write, F: Write>(
    mut logging: LoggingListener<D, Listener<C>>,
    first: StartMoments,
    reader: &mut StampedReader<R, D, Counting<W>, Counting<F>>,
    writer: &mut Counting<W>,
    notices: &mut Counting<F>,
) -> (Result<WatchReport, WatchFault>, D)
    requires reader { IsFresh reader.old }
    requires writer { writer.old.failures ≡ 0 }
    ensures runs { (before : CountedDevice F) (cut : List ℕ)
        → HasTold (F.contents before.inner) (F.contents notices.old.inner) notices.old.failures
        cut
        → PrintsLoggable C.kind.printing
        → first.newest ≡ (starts_by C.kind logging.listener).moment → logging.keeper.put ≡ 0
        → (starts_by C.kind logging.listener).moment ≤ last_moment
        → HearsBy C.kind (starts_by C.kind logging.listener) logging.listener [] []
        → HasKept D.DiskFile logging.keeper logging.keeper [] []
        → HasRun C.kind D.DiskFile first.started cut logging (λ content. record {
          tells = D.DiskFile;
          start = content;
          disk = logging.keeper.log.device;
          disk_after = result.1;
          streams = devices R.remaining W.contents (counted_of reader.old)
              (counted_of reader.new) writer.old writer.new;
          told = F.contents;
          notices = before;
          notices_after = notices.new;
          stamps = stamps_of reader.new;
        }) result.0 result.1 }
    ensures stamps { HasStampedReads R.remaining reader.old reader.new }
    ensures cuts { cut_notes reader.new ≡ cut_notes reader.old }
    ensures told { (old : Option (List ℕ)) (cut : List ℕ) → TellsOfSomeCut cut
        → HasTold old (F.contents notices.old.inner) notices.old.failures cut
        → PrintsLoggable C.kind.printing
        → first.newest ≡ (starts_by C.kind logging.listener).moment
        → (starts_by C.kind logging.listener).moment ≤ last_moment
        → HearsBy C.kind (starts_by C.kind logging.listener) logging.listener [] []
        → HasKept D.DiskFile logging.keeper logging.keeper [] []
        → TellsOfLines old (F.contents notices.new.inner) notices.new.failures }
{
    // It holds no more than the receivers, its keeper, here of a file of eight bytes, and an
    // entry.
    prove!(
        size_of::<LoggingListener<u64>>()
            == size_of::<Listener>()
                + size_of::<Keeper<u64>>()
                + size_of::<ArrayVec<u8, MAX_ENTRY>>()
    );
    match watch_lines(reader, writer, notices, &mut logging, first, MOST_BYTES) {
        Ok(counts) => logging.finish(writer, notices).answer(Ok(counts)),
        Err(end) => match end {
            WatchEnd::Back { line, last, given } => logging
                .finish(writer, notices)
                .answer(Err(WatchFault::Back { line, last, given })),
            WatchEnd::Read => logging.into_keeper().answer(Err(WatchFault::Read)),
            WatchEnd::Write => logging.into_keeper().answer(Err(WatchFault::Disk)),
        },
    }
}
