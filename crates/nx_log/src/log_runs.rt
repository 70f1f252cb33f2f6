//! A run over a log: from what is read to the entries that a query admits.

ghost use Rattle.std.specs.Prelude.{◌≡◌, ◌<◌, ◌≤◌, ◌↔◌, ◌⊎◌, ◌+◌, ◌-◌, ◌^◌, ℕ, List, [], ◌∷◌, ◌++◌, length, take, drop, min, false, true, Option, Result, IsErrOf, IfOk, OnOk, MatchResult};
ghost use Rattle.std.specs.List.{All};
ghost use Rattle.std.specs.Io.KnownBytes.{Consumes, IsAtEnd};
ghost use Rattle.nx_fec.specs.Transfers.{Writes, devices};
ghost use Rattle.nx_log.specs.LogReader.{IsAt, most_lines};
ghost use Rattle.nx_log.specs.LogRun.{HasReadFailed, RunsOverLog, WroteOutput, most_read};
ghost use Rattle.nx_log.specs.NotedReader.{HasToldBefore, counted_of};
ghost use Rattle.nx_log.specs.Notices.{HaveToldAll, Notice, Notices as TheNotices, damaged_at, notices_of};
ghost use Rattle.nx_log.specs.Reading.{IsNoBracket};
ghost use Rattle.nx_log.specs.Salvage.{BeginsAnew, Stretch, bytes_in, entries_in, first_of, lines_in, told_of};
ghost use Rattle.nx_copies.specs.copies.Shares.{MarkedCopy};
ghost use Rattle.nx_log.specs.private.LogRunning.{EndsAll, EndsRun, EndsTold, IsReading, IsRunning};
ghost use Rattle.nx_log.specs.declared.damage.Damaged.{Damaged as WithDamaged};
ghost use Rattle.nx_log.specs.declared.damage.Damaged.TheVariants as damage;
ghost use Rattle.nx_log.specs.declared.writing.form.Form.{Form as TheForm};
ghost use Rattle.nx_log.specs.declared.log_fault.LogFault.{LogFault as TheFault};
ghost use Rattle.nx_log.specs.declared.log_fault.LogFault.TheVariants.{Read as ReadFailed};
ghost use Rattle.nx_log.specs.declared.queries.query.Query.{Query as TheQuery};

use crate::damage::Damaged;
use crate::entries::reader::{BadLine, LogReader, Pushed, TornLine, line_feeds};
use crate::log_fault::LogFault;
use crate::noted_reader::NotedReader;
use crate::queries::query::Query;
use crate::writing::form::Form;
use crate::writing::notices::{tell_damage, tell_torn};
use crate::writing::output::Output;
use memchr::memchr;
use nx_fec::{CHUNK, Counting, Piece};
use std::alloc::Global;
use std::io::{Read, Write};

/// The most bytes that are read, 2^63 - 1.
pub(crate) const MAX_READ: u64 = 9_223_372_036_854_775_807;

/// Reads a log to its end, and writes those of its entries that the query admits, in order, each in
/// this form, those of all bytes so far before each further read. Answers how many it wrote. It
/// stops after 2^63 - 1 bytes, as at an end. What is read may be the log of a run that listens, a
/// kept log, also one that was torn, or what is shown of one that grows.
///
/// With `Form::Kept` what is written is a kept log of these entries: a newline before each, and at
/// the end a space, where there is an entry. The space is written too where `BadLog` is answered,
/// but not after a failed read.
///
/// An entry that was torn is passed over, and told on `notices` by its line, whatever the query
/// asks for, before the next read. A failed write of it is passed over. So that a clause can say
/// when it was told, the reader notes how the notices stand as each read is asked for. Behind a
/// read that failed they stay so.
///
/// `BadLog` at the line at which the bytes stop being a log, and `Read`, come after the entries
/// before them were written. `Write` says how many bytes were written; after it no device is
/// called. `Memory` comes before the first read. That each entry is written before the next read is
/// said by the answer `Read`. A run can't know which read will fail, and after each that fails all
/// whole entries of what was read are written, and all is told. No call on any of the three devices
/// may have failed before.
///
/// Where the query asks for the last entry of each message alone, these are held, and written at
/// the end, or before `BadLog` or `Read` is answered; the time that this takes grows with the
/// number of entries, times that of messages. `Memory` may then come later too, and nothing was
/// written.
///
/// With `Damaged::PassedOver` the run goes on where the bytes stop being a log: they are passed
/// over up to the next bracket, and told by that line, as torn entries are. Then `BadLog`, with the
/// first such line, comes at the end, after all else was written and told.
pub fn log_run<R: Read, W: Write, N: Write>(
    alloc: Global,
    reader: &mut NotedReader<R, N>,
    writer: &mut Counting<W>,
    notices: &mut Counting<N>,
    query: &Query,
    form: Form,
    damaged: Damaged,
) -> Result<u64, LogFault>
    requires reader { (counted_of reader.old).failures ≡ 0 }
    requires writer { writer.old.failures ≡ 0 }
    requires notices { notices.old.failures ≡ 0 }
    ensures runs { RunsOverLog query.now form damaged
        (devices R.remaining W.contents (counted_of reader.old) (counted_of reader.new) writer.old
        writer.new)
        (notices_of (N.contents notices.old.inner) (N.contents notices.new.inner)
        notices.new.failures) result }
    ensures told_before { HasToldBefore reader.new notices.new }
{
    let mut run = LogRun::new(alloc, damaged);
    let mut buffer = vec![in alloc; 0; CHUNK]?;
    run.read_log(reader, writer, notices, query, form, &mut buffer)?;
    run.end(writer, notices, form)
}

/// What a run holds of the bytes so far.
#[derive(Drop)]
struct LogRun {
    /// What is done with bytes that are not of a log.
    damaged: Damaged,
    /// The reader of the bytes behind those that were passed over last.
    log: LogReader,
    /// How many lines ended before the bytes that the reader was given.
    ended: u64,
    /// Whether bytes are passed over up to the next bracket. Then the reader was given none.
    is_passing: bool,
    /// The first line that is not of a log.
    first_bad: Option<u64>,
    output: Output,
    /// From which memory is taken for entries that are held.
    alloc: Global,
}

impl LogRun {
    /// A run that read nothing yet.
    fn new(alloc: Global, damaged: Damaged) -> LogRun
        ensures running { (query : TheQuery) (form : TheForm) (old told : Option (List ℕ))
            (failures : ℕ) → failures ≡ 0
            → IsRunning query form damaged old result old (notices_of told told failures) [] }
        ensures mode { result.damaged ≡ damaged }
        ensures reading { IsReading result.log }
    {
        LogRun {
            damaged,
            log: LogReader::new(),
            ended: 0,
            is_passing: false,
            first_bad: None,
            output: Output::new(alloc),
            alloc,
        }
    }

    /// Reads the input to its end or its limit, or until the run is over. No call on the reader or
    /// the writer failed before, and the buffer has 65,536 bytes (`room`). The log's reader was
    /// given some bytes of a log, or none (`reading`).
    fn read_log<R: Read, W: Write, N: Write>(
        &mut self,
        reader: &mut NotedReader<R, N>,
        writer: &mut Counting<W>,
        notices: &mut Counting<N>,
        query: &Query,
        form: Form,
        buffer: &mut [u8],
    ) -> Result<(), LogFault>
        requires reader { (counted_of reader.old).failures ≡ 0 }
        requires writer { writer.old.failures ≡ 0 }
        requires room { length buffer.old ≡ CHUNK }
        requires reading { IsReading self.old.log }
        ensures read { (damaged : WithDamaged) (old told : Option (List ℕ))
            → IsRunning query.now form damaged old self.old (W.contents writer.old.inner)
            (notices_of told (N.contents notices.old.inner) notices.old.failures) []
            → (bytes : List ℕ)
            × Consumes (R.remaining (counted_of reader.old).inner)
            (R.remaining (counted_of reader.new).inner) bytes
            × (length bytes ≤ most_read)
            × MatchResult result
            (λ _. (IsAtEnd (R.remaining (counted_of reader.new).inner) ⊎ (length bytes ≡ most_read))
            × IsRunning query.now form damaged old self.new (W.contents writer.new.inner)
            (notices_of told (N.contents notices.new.inner) notices.new.failures) bytes)
            (λ fault. EndsRun query.now form damaged
            (record { before = old; after = W.contents writer.new.inner })
            (notices_of told (N.contents notices.new.inner) notices.new.failures) bytes fault) }
        ensures unread { IsErrOf result ReadFailed → (counted_of reader.new).failures ≡ 1 }
        ensures read_failed { (counted_of reader.new).failures ≡ 1
            → HasReadFailed query.now result }
        ensures told_before { HasToldBefore reader.new notices.new }
        ensures once { (counted_of reader.new).failures ≤ 1 }
        ensures writes { Writes writer.new LogFault.Write result }
    {
        let mut room = MAX_READ;
        while room > 0 {
            self.output.send(writer)?;
            let most = (CHUNK as u64).min(room) as usize;
            let count = match reader.next_piece(notices, &mut buffer[..most]) {
                Piece::Bytes(count) => count,
                Piece::End => return Ok(()),
                Piece::Failed => return Err(self.unread(writer, query)),
            };
            self.take_piece(&buffer[..count], writer, notices, query, form)?;
            room -= count as u64;
        }
        Ok(())
    }

    /// What is answered where a read failed: that, after all that was held was written, or that a
    /// write of this failed. No call on the writer failed before.
    fn unread<W: Write>(&mut self, writer: &mut Counting<W>, query: &Query) -> LogFault
        requires writer { writer.old.failures ≡ 0 }
        ensures ended { (form : TheForm) (damaged : WithDamaged) (old : Option (List ℕ))
            (n : TheNotices) (bytes : List ℕ)
            → (h : IsRunning query.now form damaged old self.old (W.contents writer.old.inner) n
            bytes)
            → (query.now.last ≡ false → WroteOutput query.now form
            (record { before = old; after = W.contents writer.old.inner })
            (entries_in h.stretches ++ h.last))
            → EndsRun query.now form damaged
            (record { before = old; after = W.contents writer.new.inner }) n bytes result }
        ensures unread { (result ≡ ReadFailed)
            ⊎ ((query.now.last ≡ true) × ((written : ℕ) × (result ≡ LogFault.Write written))) }
        ensures failed { ((written : ℕ) × (result ≡ LogFault.Write written))
            ↔ (writer.new.failures ≡ 1) }
        ensures once { writer.new.failures ≤ 1 }
    {
        self.output.unread(writer, query)
    }

    /// Takes a piece, gives the entries that end in it, and tells of the torn ones, and of what is
    /// passed over. No call on the writer failed before, and the log's reader was given some bytes
    /// of a log, or none (`reading`).
    fn take_piece<W: Write, N: Write>(
        &mut self,
        piece: &[u8],
        writer: &mut Counting<W>,
        notices: &mut Counting<N>,
        query: &Query,
        form: Form,
    ) -> Result<(), LogFault>
        requires writer { writer.old.failures ≡ 0 }
        requires reading { IsReading self.old.log }
        ensures taken { (damaged : WithDamaged) (old told : Option (List ℕ)) (bytes : List ℕ)
            → length (bytes ++ piece.now) ≤ most_read
            → IsRunning query.now form damaged old self.old (W.contents writer.old.inner)
            (notices_of told (N.contents notices.old.inner) notices.old.failures) bytes
            → MatchResult result
            (λ _. IsRunning query.now form damaged old self.new (W.contents writer.new.inner)
            (notices_of told (N.contents notices.new.inner) notices.new.failures)
            (bytes ++ piece.now))
            (λ fault. EndsRun query.now form damaged
            (record { before = old; after = W.contents writer.new.inner })
            (notices_of told (N.contents notices.new.inner) notices.new.failures)
            (bytes ++ piece.now) fault) }
        ensures reading { OnOk result (IsReading self.new.log) }
        ensures unread { IsErrOf result ReadFailed → ⊥ }
        ensures writes { Writes writer.new LogFault.Write result }
    {
        let mut at = 0;
        while at < piece.len() {
            at += self.take_front(&piece[at..], writer, notices, query, form)?;
        }
        Ok(())
    }

    /// Takes some first bytes of a piece: passes over those up to the next bracket, or takes what
    /// `take_entry` does. Answers how many bytes it took. The piece isn't empty (`some`); the other
    /// conditions are those of `take_piece`.
    fn take_front<W: Write, N: Write>(
        &mut self,
        piece: &[u8],
        writer: &mut Counting<W>,
        notices: &mut Counting<N>,
        query: &Query,
        form: Form,
    ) -> Result<usize, LogFault>
        requires some { 0 < length piece.now }
        requires writer { writer.old.failures ≡ 0 }
        requires reading { IsReading self.old.log }
        ensures taken { (damaged : WithDamaged) (old told : Option (List ℕ)) (bytes : List ℕ)
            → length (bytes ++ piece.now) ≤ most_read
            → IsRunning query.now form damaged old self.old (W.contents writer.old.inner)
            (notices_of told (N.contents notices.old.inner) notices.old.failures) bytes
            → MatchResult result
            (λ count. IsRunning query.now form damaged old self.new (W.contents writer.new.inner)
            (notices_of told (N.contents notices.new.inner) notices.new.failures)
            (bytes ++ take count piece.now))
            (λ fault. EndsRun query.now form damaged
            (record { before = old; after = W.contents writer.new.inner })
            (notices_of told (N.contents notices.new.inner) notices.new.failures)
            (bytes ++ piece.now) fault) }
        ensures some { IfOk result (λ count. 0 < count) }
        ensures within { IfOk result (λ count. count ≤ length piece.now) }
        ensures reading { OnOk result (IsReading self.new.log) }
        ensures unread { IsErrOf result ReadFailed → ⊥ }
        ensures writes { Writes writer.new LogFault.Write result }
    {
        let passed = self.passed_in(piece);
        if passed > 0 {
            self.ended = self
                .ended
                .saturating_add(line_feeds(&piece[..passed]) as u64);
            return Ok(passed);
        }
        let count = self.part_of(piece);
        self.take_entry(&piece[..count], writer, notices, query, form)
    }

    /// How many first bytes of a piece, which isn't empty, are passed over: those up to the next
    /// bracket, where bytes are being passed over.
    fn passed_in(&self, piece: &[u8]) -> usize
        requires { 0 < length piece.now }
        ensures within { result ≤ length piece.now }
        ensures passed { 0 < result → (self.now.is_passing ≡ true)
            × All IsNoBracket (take result piece.now) }
        ensures none { result ≡ 0 → self.now.is_passing ≡ true → BeginsAnew piece.now }
    {
        if self.is_passing {
            return before_bracket(piece);
        }
        0
    }

    /// How many first bytes of a piece, which isn't empty, the reader is given at once. Where bytes
    /// can be passed over, they are those before the next bracket behind the first byte. So none
    /// stands behind the byte with which they stop being a log.
    fn part_of(&self, piece: &[u8]) -> usize
        requires { 0 < length piece.now }
        ensures some { 0 < result }
        ensures within { result ≤ length piece.now }
        ensures one { self.now.damaged ≡ damage.PassedOver
            → All IsNoBracket (drop 1 (take result piece.now)) }
    {
        match self.damaged {
            Damaged::Refused => piece.len(),
            Damaged::PassedOver => 1 + before_bracket(&piece[1..]),
        }
    }

    /// Takes the bytes of a part of a piece up to the end of the first entry that ends in it, or of
    /// a torn one, or all, and gives this entry, or tells of it. Where the bytes stop being a log
    /// in it, the run ends, or they are passed over. Answers how many bytes it took. Where bytes
    /// can be passed over, no bracket stands behind the first byte (`one`), and where they are
    /// being passed over, the first one is a bracket (`begins`). The other conditions are those of
    /// `take_front`.
    fn take_entry<W: Write, N: Write>(
        &mut self,
        part: &[u8],
        writer: &mut Counting<W>,
        notices: &mut Counting<N>,
        query: &Query,
        form: Form,
    ) -> Result<usize, LogFault>
        requires some { 0 < length part.now }
        requires writer { writer.old.failures ≡ 0 }
        requires reading { IsReading self.old.log }
        requires one { self.old.damaged ≡ damage.PassedOver → All IsNoBracket (drop 1 part.now) }
        requires begins { self.old.is_passing ≡ true → BeginsAnew part.now }
        ensures taken { (damaged : WithDamaged) (old told : Option (List ℕ)) (bytes : List ℕ)
            → length (bytes ++ part.now) ≤ most_read
            → IsRunning query.now form damaged old self.old (W.contents writer.old.inner)
            (notices_of told (N.contents notices.old.inner) notices.old.failures) bytes
            → MatchResult result
            (λ count. IsRunning query.now form damaged old self.new (W.contents writer.new.inner)
            (notices_of told (N.contents notices.new.inner) notices.new.failures)
            (bytes ++ take count part.now))
            (λ fault. EndsRun query.now form damaged
            (record { before = old; after = W.contents writer.new.inner })
            (notices_of told (N.contents notices.new.inner) notices.new.failures)
            (bytes ++ part.now) fault) }
        ensures some { IfOk result (λ count. 0 < count) }
        ensures within { IfOk result (λ count. count ≤ length part.now) }
        ensures reading { OnOk result (IsReading self.new.log) }
        ensures unread { IsErrOf result ReadFailed → ⊥ }
        ensures writes { Writes writer.new LogFault.Write result }
    {
        let from = self.log.line();
        self.is_passing = false;
        match self.log.push(part) {
            Pushed::Entry { taken } => {
                self.output.give(
                    self.alloc,
                    self.log.entry_bytes(),
                    None,
                    query,
                    form,
                    writer,
                )?;
                Ok(taken)
            }
            Pushed::Torn { taken, at } => {
                tell_torn(self.ended.saturating_add(at.line), notices);
                Ok(taken)
            }
            Pushed::All => Ok(part.len()),
            Pushed::Bad(BadLine { line }) => match self.damaged {
                Damaged::Refused => {
                    self.output.close(writer, form)?;
                    Err(LogFault::BadLog { line })
                }
                Damaged::PassedOver => {
                    self.pass_over(line, from, part, notices);
                    Ok(part.len())
                }
            },
        }
    }

    /// Passes over what the reader was given and this part, which begins on the reader's line
    /// `from`, since they stop being a log at its line `line`. Tells that, and begins anew.
    fn pass_over<N: Write>(&mut self, line: u64, from: u64, part: &[u8], notices: &mut Counting<N>)
        ensures mode { self.new.damaged ≡ self.old.damaged }
        ensures output { self.new.output ≡ self.old.output }
        ensures passing { self.new.is_passing ≡ true }
        ensures log { IsAt self.new.log [] [] [] }
        ensures ended { length part.now ≤ most_read → self.new.ended
            ≡ min (self.old.ended + (from - 1) + lines_in part.now) most_lines }
        ensures first { self.new.first_bad
            ≡ first_of self.old.first_bad (min (self.old.ended + line) most_lines) }
        ensures told { (old : Option (List ℕ)) (before : List Notice)
            → HaveToldAll (notices_of old (N.contents notices.old.inner) notices.old.failures)
            before
            → HaveToldAll (notices_of old (N.contents notices.new.inner) notices.new.failures)
            (before ++ damaged_at (min (self.old.ended + line) most_lines) ∷ []) }
    {
        let bad = self.ended.saturating_add(line);
        tell_damage(bad, notices);
        if self.first_bad.is_none() {
            self.first_bad = Some(bad);
        }
        let lines = from
            .saturating_sub(1)
            .saturating_add(line_feeds(part) as u64);
        self.ended = self.ended.saturating_add(lines);
        self.log = LogReader::new();
        self.is_passing = true;
    }

    /// Ends the input: writes what waits or is held and what stands behind it in this form, tells
    /// of a torn entry at the end, and answers how many entries were written, or which line is the
    /// first that is not of a log. No call on the writer failed before.
    fn end<W: Write, N: Write>(
        &mut self,
        writer: &mut Counting<W>,
        notices: &mut Counting<N>,
        form: Form,
    ) -> Result<u64, LogFault>
        requires writer { writer.old.failures ≡ 0 }
        ensures ended { (query : TheQuery) (damaged : WithDamaged)
            (old told : Option (List ℕ)) (bytes : List ℕ)
            → length bytes ≤ most_read
            → IsRunning query form damaged old self.old (W.contents writer.old.inner)
            (notices_of told (N.contents notices.old.inner) notices.old.failures) bytes
            → EndsAll query form damaged
            (record { before = old; after = W.contents writer.new.inner })
            (notices_of told (N.contents notices.new.inner) notices.new.failures) bytes result }
        ensures unread { IsErrOf result ReadFailed → ⊥ }
        ensures writes { Writes writer.new LogFault.Write result }
    {
        self.output.close(writer, form)?;
        self.tell_last(notices);
        match self.first_bad {
            Some(line) => Err(LogFault::BadLog { line }),
            None => Ok(self.output.count()),
        }
    }

    /// Tells of the torn entry with which the input ends, if it ends with one.
    fn tell_last<N: Write>(&self, notices: &mut Counting<N>)
        ensures { (told : Option (List ℕ)) (stretches : List Stretch) (rest : List ℕ)
            (last : List MarkedCopy) (torn : List ℕ)
            → length (bytes_in stretches ++ rest) ≤ most_read
            → self.now.ended ≡ lines_in (bytes_in stretches) → IsAt self.now.log rest last torn
            → HaveToldAll (notices_of told (N.contents notices.old.inner) notices.old.failures)
            (told_of stretches torn)
            → EndsTold (notices_of told (N.contents notices.new.inner) notices.new.failures)
            stretches rest last }
    {
        match self.log.finish() {
            Some(TornLine { line }) => tell_torn(self.ended.saturating_add(line), notices),
            None => {}
        }
    }
}

/// How many bytes stand before the first bracket, which are all where there is none.
fn before_bracket(bytes: &[u8]) -> usize
    ensures within { result ≤ length bytes.now }
    ensures none { All IsNoBracket (take result bytes.now) }
    ensures first { result ≡ 0 → 0 < length bytes.now → BeginsAnew bytes.now }
{
    match memchr(b'[', bytes) {
        Some(place) => place,
        None => bytes.len(),
    }
}
