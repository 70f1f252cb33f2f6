//! A run over a kept log: from what is read to the entries that it stands for.

ghost use Rattle.std.specs.Prelude.{◌≡◌, ◌<◌, ◌≤◌, ◌↔◌, ◌⊎◌, ◌+◌, ℕ, List, [], ◌++◌, length, take, Option, IsErrOf, IfOk, OnOk, MatchResult};
ghost use Rattle.std.specs.Io.KnownBytes.{Consumes, IsAtEnd};
ghost use Rattle.nx_fec.specs.Transfers.{Writes, devices};
ghost use Rattle.nx_log.specs.KeptRun.{RunsOverKept};
ghost use Rattle.nx_log.specs.LogRun.{HasReadFailed, most_read};
ghost use Rattle.nx_log.specs.private.KeptReading.{IsSound};
ghost use Rattle.nx_log.specs.private.KeptRunning.{EndsKeptAll, EndsKeptRun, IsKeptRunning, most_places};
ghost use Rattle.nx_log.specs.declared.log_fault.LogFault.TheVariants.{Read as ReadFailed};
ghost use Rattle.nx_log.specs.declared.queries.query.Query.{Query as TheQuery};
ghost use Rattle.nx_log.specs.declared.writing.form.Form.{Form as TheForm};

use crate::entries::kept_reader::{KeptPushed, KeptReader};
use crate::entries::reader::BadLine;
use crate::log_fault::LogFault;
use crate::log_runs::MAX_READ;
use crate::queries::query::Query;
use crate::writing::form::Form;
use crate::writing::output::Output;
use nx_fec::{CHUNK, Counting, Piece, next_piece};
use std::alloc::Global;
use std::io::{Read, Write};

/// Reads a kept log, or what stands in one from a gate on, to its end, and writes the entries that
/// it stands for and the query chooses, in order, each in this form, those of all bytes so far
/// before each further read. Answers how many it wrote. What stands behind a closed gate counts for
/// nothing. It stops after 2^63 - 1 bytes, as at an end.
///
/// So many bytes, `from`, stand before those that are read, at most 2^63 - 1. In JSON each entry
/// has its places too: how many bytes stand before the gate before it, and before the gate behind
/// it. No call on the reader or the writer failed before.
///
/// `BadLog` at the line from which on the bytes stand for no entries, counted from their first;
/// where they end too early, the line whose line feed is missing. It and `Read` come after the
/// entries before were written. `Write` says how many bytes were written; after it no device is
/// called. `Memory` comes before the first read, but where the query asks for the last entry of
/// each message alone: then it may come later too, and nothing was written.
pub fn kept_run<R: Read, W: Write>(
    alloc: Global,
    reader: &mut Counting<R>,
    writer: &mut Counting<W>,
    query: &Query,
    form: Form,
    from: u64,
) -> Result<u64, LogFault>
    requires reader { reader.old.failures ≡ 0 }
    requires writer { writer.old.failures ≡ 0 }
    requires from { from ≤ most_read }
    ensures { RunsOverKept query.now form from
        (devices R.remaining W.contents reader.old reader.new writer.old writer.new) result }
{
    let mut run = KeptRun::new(alloc, from);
    let mut buffer = vec![in alloc; 0; CHUNK]?;
    run.read_log(reader, writer, query, form, &mut buffer)?;
    run.end(writer, form)
}

/// What a run holds of the bytes so far.
#[derive(Drop)]
struct KeptRun {
    log: KeptReader,
    output: Output,
    /// From which memory is taken for entries that are held.
    alloc: Global,
}

impl KeptRun {
    /// A run that read nothing yet, where so many bytes stand before.
    fn new(alloc: Global, from: u64) -> KeptRun
        ensures running { (query : TheQuery) (form : TheForm) (old : Option (List ℕ))
            → IsKeptRunning query form from old result old [] }
        ensures sound { IsSound result.log }
    {
        KeptRun {
            log: KeptReader::new(from),
            output: Output::new(alloc),
            alloc,
        }
    }

    /// Reads the input to its end or its limit, or until the run is over. No call on the reader or
    /// the writer failed before, and the buffer has 65,536 bytes (`room`). The log's reader is of
    /// use still (`sound`).
    fn read_log<R: Read, W: Write>(
        &mut self,
        reader: &mut Counting<R>,
        writer: &mut Counting<W>,
        query: &Query,
        form: Form,
        buffer: &mut [u8],
    ) -> Result<(), LogFault>
        requires reader { reader.old.failures ≡ 0 }
        requires writer { writer.old.failures ≡ 0 }
        requires room { length buffer.old ≡ CHUNK }
        requires sound { IsSound self.old.log }
        ensures read { (from : ℕ) (old : Option (List ℕ)) → from ≤ most_read
            → IsKeptRunning query.now form from old self.old (W.contents writer.old.inner) []
            → (bytes : List ℕ)
            × Consumes (R.remaining reader.old.inner) (R.remaining reader.new.inner) bytes
            × (length bytes ≤ most_read)
            × MatchResult result
            (λ _. (IsAtEnd (R.remaining reader.new.inner) ⊎ (length bytes ≡ most_read))
            × IsKeptRunning query.now form from old self.new (W.contents writer.new.inner) bytes)
            (λ fault. EndsKeptRun query.now form from
            (record { before = old; after = W.contents writer.new.inner }) bytes fault) }
        ensures unread { IsErrOf result ReadFailed → reader.new.failures ≡ 1 }
        ensures read_failed { reader.new.failures ≡ 1 → HasReadFailed query.now result }
        ensures once { reader.new.failures ≤ 1 }
        ensures writes { Writes writer.new LogFault.Write result }
    {
        let mut room = MAX_READ;
        while room > 0 {
            self.output.send(writer)?;
            let most = (CHUNK as u64).min(room) as usize;
            let count = match next_piece(reader, &mut buffer[..most]) {
                Piece::Bytes(count) => count,
                Piece::End => return Ok(()),
                Piece::Failed => return Err(self.output.unread(writer, query)),
            };
            self.take_piece(&buffer[..count], writer, query, form)?;
            room -= count as u64;
        }
        Ok(())
    }

    /// Takes a piece, and gives the entries that end in it. No call on the writer failed before,
    /// and the log's reader is of use still (`sound`).
    fn take_piece<W: Write>(
        &mut self,
        piece: &[u8],
        writer: &mut Counting<W>,
        query: &Query,
        form: Form,
    ) -> Result<(), LogFault>
        requires writer { writer.old.failures ≡ 0 }
        requires sound { IsSound self.old.log }
        ensures taken { (from : ℕ) (old : Option (List ℕ)) (bytes : List ℕ)
            → from + length (bytes ++ piece.now) ≤ most_places
            → IsKeptRunning query.now form from old self.old (W.contents writer.old.inner) bytes
            → MatchResult result
            (λ _. IsKeptRunning query.now form from old self.new (W.contents writer.new.inner)
            (bytes ++ piece.now))
            (λ fault. EndsKeptRun query.now form from
            (record { before = old; after = W.contents writer.new.inner })
            (bytes ++ piece.now) fault) }
        ensures sound { OnOk result (IsSound self.new.log) }
        ensures unread { IsErrOf result ReadFailed → ⊥ }
        ensures writes { Writes writer.new LogFault.Write result }
    {
        let mut at = 0;
        while at < piece.len() {
            at += self.take_part(&piece[at..], writer, query, form)?;
        }
        Ok(())
    }

    /// Takes some first bytes of a piece, at most up to the end of the first entry that ends in it,
    /// and gives this entry. Answers how many bytes it took. The piece isn't empty (`some`); the
    /// other conditions are those of `take_piece`.
    fn take_part<W: Write>(
        &mut self,
        piece: &[u8],
        writer: &mut Counting<W>,
        query: &Query,
        form: Form,
    ) -> Result<usize, LogFault>
        requires some { 0 < length piece.now }
        requires writer { writer.old.failures ≡ 0 }
        requires sound { IsSound self.old.log }
        ensures taken { (from : ℕ) (old : Option (List ℕ)) (bytes : List ℕ)
            → from + length (bytes ++ piece.now) ≤ most_places
            → IsKeptRunning query.now form from old self.old (W.contents writer.old.inner) bytes
            → MatchResult result
            (λ count. IsKeptRunning query.now form from old self.new (W.contents writer.new.inner)
            (bytes ++ take count piece.now))
            (λ fault. EndsKeptRun query.now form from
            (record { before = old; after = W.contents writer.new.inner })
            (bytes ++ piece.now) fault) }
        ensures some { IfOk result (λ count. 0 < count) }
        ensures within { IfOk result (λ count. count ≤ length piece.now) }
        ensures sound { OnOk result (IsSound self.new.log) }
        ensures unread { IsErrOf result ReadFailed → ⊥ }
        ensures writes { Writes writer.new LogFault.Write result }
    {
        match self.log.push(piece) {
            KeptPushed::Entry { taken, places } => {
                self.output.give(
                    self.alloc,
                    self.log.entry_bytes(),
                    Some(places),
                    query,
                    form,
                    writer,
                )?;
                Ok(taken)
            }
            KeptPushed::Part { taken } => Ok(taken),
            KeptPushed::Bad(BadLine { line }) => {
                self.output.close(writer, form)?;
                Err(LogFault::BadLog { line })
            }
        }
    }

    /// Ends the input: writes what waits or is held and what stands behind it in this form, and
    /// answers how many entries were written, or at which line the bytes end too early. No call on
    /// the writer failed before.
    fn end<W: Write>(&mut self, writer: &mut Counting<W>, form: Form) -> Result<u64, LogFault>
        requires writer { writer.old.failures ≡ 0 }
        ensures ended { (query : TheQuery) (from : ℕ) (old : Option (List ℕ)) (bytes : List ℕ)
            → IsKeptRunning query form from old self.old (W.contents writer.old.inner) bytes
            → EndsKeptAll query form from
            (record { before = old; after = W.contents writer.new.inner }) bytes result }
        ensures unread { IsErrOf result ReadFailed → ⊥ }
        ensures writes { Writes writer.new LogFault.Write result }
    {
        self.output.close(writer, form)?;
        match self.log.finish() {
            Some(BadLine { line }) => Err(LogFault::BadLog { line }),
            None => Ok(self.output.count()),
        }
    }
}
