//! A receiver that is left on.

ghost use Rattle.std.specs.Prelude.{◌≡◌, ℕ, List, Option, Err};
ghost use Rattle.nx_fec.specs.Transfers.{devices};
ghost use Rattle.nx_kept.specs.Disk.{OnlyReads};
ghost use Rattle.nx_kept.specs.Kept.{IsDamaged, IsKeptLog, first_byte};
ghost use Rattle.nx_log.specs.Entries.{IsWholeEntry};
ghost use Rattle.nx_copies.specs.copies.Shares.{MarkedCopy};
ghost use Rattle.nx_watch.specs.Watch.{AnswersWatch, AnswersWatchBy, FailsWithin, HasCause, PrintsLoggable, RefusesLog, StandsForEntries, longest_entry};
ghost use Rattle.nx_watch.specs.LineRun.{TellsOfLines};
ghost use Rattle.nx_watch.specs.Stamps.{HasStampedReads, IsFresh, counted_of, cut_notes, stamps_of};
ghost use Rattle.nx_watch.specs.ToldFirst.{TellsBeforeChange};
ghost use Rattle.nx_watch.specs.private.Answering.{fault_answered};
ghost use Rattle.nx_watch.specs.declared.watch_fault.WatchFault.TheVariants.{Damaged as DamagedAt};

use crate::kept_log::keeper::Keeper;
use crate::kept_log::log_memory::LogMemory;
use crate::kept_log::log_opening::open_log;
use crate::lines::line_effects::StartMoments;
use crate::logging_listener::LoggingListener;
use crate::stamped::StampedReader;
use crate::watch_fault::WatchFault;
use crate::watch_report::WatchReport;
use crate::watch_run::run_watch;
use arrayvec::ArrayVec;
use nx_fec::Counting;
use nx_kept::{DiskFile, OpenFault};
use nx_memory::RingRecall;
use nx_receiver::{ChannelReceiver, Listener, Receiver};
use std::alloc::Global;
use std::io::{Read, Write};

/// Listens to the lines of any bytes, to their end or to 2^63 - 1 of them. It puts each entry that
/// `listen_from` would print of the lines that act into the kept log. Before each further read all
/// entries of the lines so far are put. Three receivers hear them, one for each channel. They start
/// at `moment`, in whole seconds since 1970-01-01 00:00:00 UTC, with what is remembered of the log
/// then; everything is selected. Elements that come before any moment set it, or the newest
/// remembered one where that is later; one past the year 2999 isn't set. The end of the input
/// closes the channels 0, 1 and 2 in order, and so does a moment that ends the watch. What is cut
/// of the log is told on `notices` before it is cut, as the reader notes. Lines without effect are
/// told of there too: the first, and why it has none, before the next read, and their number at the
/// end. A put that fails is told before the next read, or behind the number where it was in the
/// closings. A failed write there is passed over. Memory is taken before the first read, and not
/// later. Hands the file back.
///
/// From a failed put on the disk isn't called any more: that entry and all later ones are written
/// to `writer`, each before the next read, as `listen` writes them. Whatever ends the watch then, a
/// failed write there too, it is answered as `Disk`. Nothing else is written to `writer`.
///
/// A crash may come at any moment of the call, also before the first read. It leaves what it could
/// leave before the call, or a file that stands for the entries from before and a beginning of
/// those that the lines print. The reader notes what stood at each of its reads. A crash at any
/// moment from a read on leaves at least the entries of the lines that were whole at it, where no
/// put had failed by then; else they stood on `writer`.
pub fn watch<D: DiskFile + Drop, R: Read, W: Write, F: Write>(
    alloc: Global,
    moment: u64,
    device: D,
    reader: &mut StampedReader<R, D, Counting<W>, Counting<F>>,
    writer: &mut Counting<W>,
    notices: &mut Counting<F>,
) -> (Result<WatchReport, WatchFault>, D)
    requires reader { IsFresh reader.old }
    requires writer { writer.old.failures ≡ 0 }
    requires notices { notices.old.failures ≡ 0 }

    ensures watched { (start : List ℕ) (entries : List MarkedCopy) → D.explains start result.1
        → StandsForEntries entries (D.seen start device)
        → AnswersWatch (record {
          tells = D.DiskFile;
          start = start;
          disk = device;
          disk_after = result.1;
          streams = devices R.remaining W.contents (counted_of reader.old) (counted_of reader.new)
              writer.old writer.new;
          told = F.contents;
          notices = notices.old;
          notices_after = notices.new;
          stamps = stamps_of reader.new;
        }) moment entries result.0 }

    // A file that is no kept log is refused: at the line of the damage, or since the disk failed or
    // memory ran out. It is only read, and nothing is read of the input.
    ensures damaged { (start : List ℕ) (line : ℕ) (first : Option ℕ) → D.explains start result.1
        → result.0 ≡ Err (DamagedAt line first)
        → IsDamaged IsWholeEntry longest_entry line (D.seen start device) }

    // It is told what its first byte is.
    ensures first { (start : List ℕ) (line : ℕ) (first : Option ℕ) → D.explains start result.1
        → result.0 ≡ Err (DamagedAt line first) → first ≡ first_byte (D.seen start device) }
    ensures refused { (start : List ℕ) → D.explains start result.1
        → (IsKeptLog IsWholeEntry longest_entry (D.seen start device) → ⊥)
        → RefusesLog (D.seen start device) result.0 }
    ensures foreign { (start : List ℕ) → D.explains start result.1
        → (IsKeptLog IsWholeEntry longest_entry (D.seen start device) → ⊥)
        → OnlyReads (D.seen start) (D.may_leave start) D.moment (D.left_since start) device result.1
        × (reader.new ≡ reader.old) × (writer.new ≡ writer.old) × (notices.new ≡ notices.old) }

    // The disk is blamed only where it failed, and called no more after that.
    ensures cause { HasCause D.DiskFile result.0 device result.1 }

    // The call that failed was at a place within the file or at its end, whatever the file is.
    ensures within { (start : List ℕ) → D.explains start result.1
        → FailsWithin D.DiskFile start device result.1 }
    ensures explained { (start : List ℕ) → D.explains start result.1 → D.explains start device }

    // Each read of the input has a stamp, and nothing else has one.
    ensures stamps { HasStampedReads R.remaining reader.old reader.new }

    // Where a start cuts something of the log, that had been told before the file was changed.
    ensures told_first { (start : List ℕ) → D.explains start result.1
        → TellsBeforeChange D.DiskFile F.contents device notices.old (cut_notes reader.old)
        (cut_notes reader.new) start result.1 }

    // Whatever the file is, it was told on `notices` what is cut, and of some lines; nothing else.
    ensures told { TellsOfLines (F.contents notices.old.inner) (F.contents notices.new.inner)
        notices.new.failures }
{
    watch_with::<Receiver<RingRecall>, D, R, W, F>(alloc, moment, device, reader, writer, notices)
}

/// Watches with receivers of this kind, as `watch` does with those that judge each copy alone. What
/// they print of the lines that act is put into the kept log. All else is as `watch` says.
pub fn watch_with<C: ChannelReceiver, D: DiskFile + Drop, R: Read, W: Write, F: Write>(
    alloc: Global,
    moment: u64,
    device: D,
    reader: &mut StampedReader<R, D, Counting<W>, Counting<F>>,
    writer: &mut Counting<W>,
    notices: &mut Counting<F>,
) -> (Result<WatchReport, WatchFault>, D)
    requires reader { IsFresh reader.old }
    requires writer { writer.old.failures ≡ 0 }
    requires notices { notices.old.failures ≡ 0 }

    // What such receivers print can stand in a log.
    requires loggable { PrintsLoggable C.kind.printing }

    ensures watched { (start : List ℕ) (entries : List MarkedCopy) → D.explains start result.1
        → StandsForEntries entries (D.seen start device)
        → AnswersWatchBy (record {
          tells = D.DiskFile;
          start = start;
          disk = device;
          disk_after = result.1;
          streams = devices R.remaining W.contents (counted_of reader.old) (counted_of reader.new)
              writer.old writer.new;
          told = F.contents;
          notices = notices.old;
          notices_after = notices.new;
          stamps = stamps_of reader.new;
        }) C.kind.printing moment entries result.0 }

    // A file that is no kept log is refused: at the line of the damage, or since the disk failed or
    // memory ran out. It is only read, and nothing is read of the input.
    ensures damaged { (start : List ℕ) (line : ℕ) (first : Option ℕ) → D.explains start result.1
        → result.0 ≡ Err (DamagedAt line first)
        → IsDamaged IsWholeEntry longest_entry line (D.seen start device) }

    // It is told what its first byte is.
    ensures first { (start : List ℕ) (line : ℕ) (first : Option ℕ) → D.explains start result.1
        → result.0 ≡ Err (DamagedAt line first) → first ≡ first_byte (D.seen start device) }
    ensures refused { (start : List ℕ) → D.explains start result.1
        → (IsKeptLog IsWholeEntry longest_entry (D.seen start device) → ⊥)
        → RefusesLog (D.seen start device) result.0 }
    ensures foreign { (start : List ℕ) → D.explains start result.1
        → (IsKeptLog IsWholeEntry longest_entry (D.seen start device) → ⊥)
        → OnlyReads (D.seen start) (D.may_leave start) D.moment (D.left_since start) device result.1
        × (reader.new ≡ reader.old) × (writer.new ≡ writer.old) × (notices.new ≡ notices.old) }

    // The disk is blamed only where it failed, and called no more after that.
    ensures cause { HasCause D.DiskFile result.0 device result.1 }

    // The call that failed was at a place within the file or at its end, whatever the file is.
    ensures within { (start : List ℕ) → D.explains start result.1
        → FailsWithin D.DiskFile start device result.1 }
    ensures explained { (start : List ℕ) → D.explains start result.1 → D.explains start device }

    // Each read of the input has a stamp, and nothing else has one.
    ensures stamps { HasStampedReads R.remaining reader.old reader.new }

    // Where a start cuts something of the log, that had been told before the file was changed.
    ensures told_first { (start : List ℕ) → D.explains start result.1
        → TellsBeforeChange D.DiskFile F.contents device notices.old (cut_notes reader.old)
        (cut_notes reader.new) start result.1 }

    // Whatever the file is, it was told on `notices` what is cut, and of some lines; nothing else.
    ensures told { TellsOfLines (F.contents notices.old.inner) (F.contents notices.new.inner)
        notices.new.failures }
{
    let mut memory = LogMemory::new();
    let log = match open_log(alloc, device, &mut memory, notices, &mut reader.cuts) {
        Ok(log) => log,
        Err((fault, device)) => return (Err(fault_of(fault)), device),
    };
    let keeper = Keeper {
        log,
        put: 0,
        has_failed: false,
    };
    let saved = memory.saved_at(moment);
    let Ok(listener) = Listener::<C>::starting(alloc, &saved) else {
        return keeper.answer(Err(WatchFault::Memory));
    };
    let first = StartMoments {
        newest: saved.newest().unwrap_or(0),
        started: moment,
    };
    let logging = LoggingListener {
        listener,
        keeper,
        entry: ArrayVec::new(),
    };
    run_watch(logging, first, reader, writer, notices)
}

/// Why a watch can't begin.
fn fault_of(fault: OpenFault) -> WatchFault
    ensures { result ≡ fault_answered fault }
{
    match fault {
        OpenFault::Read => WatchFault::Open,
        OpenFault::Disk => WatchFault::Disk,
        OpenFault::Damaged { line, first } => WatchFault::Damaged { line, first },
        OpenFault::Memory => WatchFault::Memory,
    }
}
