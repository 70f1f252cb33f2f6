//! A receiver that is left on, where the sendings of a message are taken together.

ghost use Rattle.std.specs.Prelude.{◌≡◌, ℕ, List, Option, Err};
ghost use Rattle.nx_fec.specs.Transfers.{devices};
ghost use Rattle.nx_kept.specs.Disk.{OnlyReads};
ghost use Rattle.nx_kept.specs.Kept.{IsDamaged, IsKeptLog, first_byte};
ghost use Rattle.nx_log.specs.Entries.{IsWholeEntry};
ghost use Rattle.nx_copies.specs.copies.Shares.{MarkedCopy};
ghost use Rattle.nx_combine.specs.CombinedPrinting.{combined};
ghost use Rattle.nx_watch.specs.Watch.{AnswersWatchBy, FailsWithin, HasCause, RefusesLog, StandsForEntries, longest_entry};
ghost use Rattle.nx_watch.specs.LineRun.{TellsOfLines};
ghost use Rattle.nx_watch.specs.Stamps.{HasStampedReads, IsFresh, counted_of, cut_notes, stamps_of};
ghost use Rattle.nx_watch.specs.ToldFirst.{TellsBeforeChange};
ghost use Rattle.nx_watch.specs.declared.watch_fault.WatchFault.TheVariants.{Damaged as DamagedAt};

use crate::left_on::watch_with;
use crate::stamped::StampedReader;
use crate::watch_fault::WatchFault;
use crate::watch_report::WatchReport;
use nx_combine::CombinedReceiver;
use nx_fec::Counting;
use nx_kept::DiskFile;
use nx_memory::RenewingRecall;
use std::alloc::Global;
use std::io::{Read, Write};

/// Watches as `watch` does, and takes the sendings of a message together. What is put into the kept
/// log is an entry for each combined copy that is printed: the message as all its sendings so far
/// give it, put once more where it has become better, before the next read. All else that `watch`
/// says holds of it.
///
/// A start remembers of the log what it remembers without this: of two entries of an identity less
/// than 66 hours apart the later one counts. Families aren't kept, and begin anew at a start: what
/// was lost of a sending is taken only of those that this call hears. Some five megabytes more are
/// taken before the first read.
pub fn watch_combined<D: DiskFile + Drop, R: Read, W: Write, F: Write>(
    alloc: Global,
    moment: u64,
    device: D,
    reader: &mut StampedReader<R, D, Counting<W>, Counting<F>>,
    writer: &mut Counting<W>,
    notices: &mut Counting<F>,
) -> (Result<WatchReport, WatchFault>, D)
    requires reader { IsFresh reader.old }
    requires writer { writer.old.failures ≡ 0 }
    requires notices { notices.old.failures ≡ 0 }

    ensures watched { (start : List ℕ) (entries : List MarkedCopy) → D.explains start result.1
        → StandsForEntries entries (D.seen start device)
        → AnswersWatchBy (record {
          tells = D.DiskFile;
          start = start;
          disk = device;
          disk_after = result.1;
          streams = devices R.remaining W.contents (counted_of reader.old) (counted_of reader.new)
              writer.old writer.new;
          told = F.contents;
          notices = notices.old;
          notices_after = notices.new;
          stamps = stamps_of reader.new;
        }) combined moment entries result.0 }

    // A file that is no kept log is refused: at the line of the damage, or since the disk failed or
    // memory ran out. It is only read, and nothing is read of the input.
    ensures damaged { (start : List ℕ) (line : ℕ) (first : Option ℕ) → D.explains start result.1
        → result.0 ≡ Err (DamagedAt line first)
        → IsDamaged IsWholeEntry longest_entry line (D.seen start device) }

    // It is told what its first byte is.
    ensures first { (start : List ℕ) (line : ℕ) (first : Option ℕ) → D.explains start result.1
        → result.0 ≡ Err (DamagedAt line first) → first ≡ first_byte (D.seen start device) }
    ensures refused { (start : List ℕ) → D.explains start result.1
        → (IsKeptLog IsWholeEntry longest_entry (D.seen start device) → ⊥)
        → RefusesLog (D.seen start device) result.0 }
    ensures foreign { (start : List ℕ) → D.explains start result.1
        → (IsKeptLog IsWholeEntry longest_entry (D.seen start device) → ⊥)
        → OnlyReads (D.seen start) (D.may_leave start) D.moment (D.left_since start) device result.1
        × (reader.new ≡ reader.old) × (writer.new ≡ writer.old) × (notices.new ≡ notices.old) }

    // The disk is blamed only where it failed, and called no more after that.
    ensures cause { HasCause D.DiskFile result.0 device result.1 }

    // The call that failed was at a place within the file or at its end, whatever the file is.
    ensures within { (start : List ℕ) → D.explains start result.1
        → FailsWithin D.DiskFile start device result.1 }
    ensures explained { (start : List ℕ) → D.explains start result.1 → D.explains start device }

    // Each read of the input has a stamp, and nothing else has one.
    ensures stamps { HasStampedReads R.remaining reader.old reader.new }

    // Where a start cuts something of the log, that had been told before the file was changed.
    ensures told_first { (start : List ℕ) → D.explains start result.1
        → TellsBeforeChange D.DiskFile F.contents device notices.old (cut_notes reader.old)
        (cut_notes reader.new) start result.1 }

    // Whatever the file is, it was told on `notices` what is cut, and of some lines; nothing else.
    ensures told { TellsOfLines (F.contents notices.old.inner) (F.contents notices.new.inner)
        notices.new.failures }
{
    watch_with::<CombinedReceiver<RenewingRecall>, D, R, W, F>(
        alloc, moment, device, reader, writer, notices,
    )
}
