//! The entries of a log that are written.

ghost use Rattle.std.specs.Prelude.{◌≡◌, ◌≤◌, ◌↔◌, ◌⊎◌, ◌+◌, ◌-◌, ◌^◌, true, false, ℕ, List, [], ◌∷◌, ◌++◌, length, min, Option, IsErrOf, MatchResult, OnOk};
ghost use Rattle.nx_fec.specs.Transfers.{FailsOnce, Writes};
ghost use Rattle.nx_log.specs.Entries.{IsWholeEntry};
ghost use Rattle.nx_log.specs.LogRun.{IsInForm, WrotePlaced, WrotePlacedPart, WrotePlacedToEnd, end_of as the_end_of};
ghost use Rattle.nx_log.specs.Places.{PlacedCopy, chosen_placed};
ghost use Rattle.nx_log.specs.Logged.{IsLoggedAs};
ghost use Rattle.nx_log.specs.Query.{admits};
ghost use Rattle.nx_log.specs.private.Held.{SaysHead};
ghost use Rattle.nx_log.specs.private.LogRunning.{EndsUnread, FailsGiving, HasGivenOutput};
ghost use Rattle.nx_log.specs.declared.log_fault.LogFault.TheVariants.{Read as ReadFailed};
ghost use Rattle.nx_log.specs.declared.writing.form.Form.{Form as TheForm};
ghost use Rattle.nx_log.specs.declared.queries.query.Query.{Query as TheQuery};
ghost use Rattle.nx_copies.specs.copies.Shares.{MarkedCopy};

use crate::entries::entry::whole_entry;
use crate::entries::head::LoggedHead;
use crate::log_fault::LogFault;
use crate::queries::query::Query;
use crate::writing::form::Form;
use crate::writing::json_text::placed_line;
use crate::writing::kept_text::{GATE_BEHIND, kept_text};
use crate::writing::last_entries::LastEntries;
use crate::writing::places::Places;
use nx_fec::{Batch, Counting, WriteFault};
use std::alloc::Global;
use std::io::Write;

/// What is given of a log to a writer, with a count of its entries, at most the greatest u64; and
/// what is held until it ends. Where the last entry of each message alone is asked for, all are
/// held, and else none is.
#[derive(Drop)]
pub(crate) struct Output {
    batch: Batch,
    passed: u64,
    held: LastEntries,
}

impl Output {
    /// Nothing was given.
    pub(crate) fn new(alloc: Global) -> Output
        ensures given { (query : TheQuery) (form : TheForm) (old : Option (List ℕ))
            → HasGivenOutput query form old old result [] }
    {
        Output {
            batch: Batch::new(),
            passed: 0,
            held: LastEntries::new(alloc),
        }
    }

    /// How many entries were given or are held.
    pub(crate) fn count(&self) -> u64
        ensures { result ≡ min (self.now.passed + length self.now.held.entries.items)
            (2 ^ 64 - 1) }
    {
        self.passed.saturating_add(self.held.len() as u64)
    }

    /// Gives the entry that these bytes are, in this form, where the query admits it, or holds it.
    /// In JSON its places stand too, where they are told. The bytes are those of a logged entry,
    /// all of them (`whole`), and no call on the writer failed before (`unused`).
    pub(crate) fn give<W: Write>(
        &mut self,
        alloc: Global,
        bytes: &[u8],
        places: Option<Places>,
        query: &Query,
        form: Form,
        writer: &mut Counting<W>,
    ) -> Result<(), LogFault>
        requires unused { writer.old.failures ≡ 0 }
        requires whole { IsWholeEntry bytes.now }
        ensures given { (one : MarkedCopy) (old : Option (List ℕ)) (entries : List PlacedCopy)
            → IsLoggedAs one bytes.now
            → HasGivenOutput query.now form old (W.contents writer.old.inner) self.old entries
            → MatchResult result
            (λ _. HasGivenOutput query.now form old (W.contents writer.new.inner) self.new
            (entries ++ record { one = one; places = places } ∷ []))
            (FailsGiving query.now form
            (record { before = old; after = W.contents writer.new.inner })
            (entries ++ record { one = one; places = places } ∷ [])) }
        ensures unread { IsErrOf result ReadFailed → ⊥ }
        ensures writes { Writes writer.new LogFault.Write result }
    {
        let view = whole_entry(bytes);
        if !query.admits(&view.head) {
            return Ok(());
        }
        match form {
            Form::Log => self.take(alloc, view.head, bytes, query, writer),
            Form::Json => {
                let line = placed_line(&view, places);
                self.take(alloc, view.head, line.as_slice(), query, writer)
            }
            Form::Kept => self.take(alloc, view.head, kept_text(bytes).as_slice(), query, writer),
        }
    }

    /// Gives an entry that the query admits, which has this head and this text, or holds it. No
    /// call on the writer failed before.
    fn take<W: Write>(
        &mut self,
        alloc: Global,
        head: LoggedHead,
        text: &[u8],
        query: &Query,
        writer: &mut Counting<W>,
    ) -> Result<(), LogFault>
        requires unused { writer.old.failures ≡ 0 }
        ensures given { (form : TheForm) (one : PlacedCopy) (old : Option (List ℕ))
            (entries : List PlacedCopy) → SaysHead head one.one → IsInForm form one text.now
            → admits query.now one.one ≡ true
            → HasGivenOutput query.now form old (W.contents writer.old.inner) self.old entries
            → MatchResult result
            (λ _. HasGivenOutput query.now form old (W.contents writer.new.inner) self.new
            (entries ++ one ∷ []))
            (FailsGiving query.now form
            (record { before = old; after = W.contents writer.new.inner })
            (entries ++ one ∷ [])) }
        ensures unread { IsErrOf result ReadFailed → ⊥ }
        ensures writes { Writes writer.new LogFault.Write result }
    {
        if query.last {
            self.held.take(alloc, head, text)?;
        } else {
            self.passed = self.passed.saturating_add(1);
            self.batch.give(writer, text)?;
        }
        Ok(())
    }

    /// Writes what waits. No call on the writer failed before.
    pub(crate) fn send<W: Write>(&mut self, writer: &mut Counting<W>) -> Result<(), WriteFault>
        requires unused { writer.old.failures ≡ 0 }
        ensures given { (query : TheQuery) (form : TheForm) (old : Option (List ℕ))
            (entries : List PlacedCopy)
            → HasGivenOutput query form old (W.contents writer.old.inner) self.old entries
            → MatchResult result
            (λ _. HasGivenOutput query form old (W.contents writer.new.inner) self.new entries
            × (query.last ≡ false → WrotePlaced query form
            (record { before = old; after = W.contents writer.new.inner }) entries))
            (λ fault. WrotePlacedPart query form
            (record { before = old; after = W.contents writer.new.inner }) entries
            fault.written) }
        ensures counts { FailsOnce writer.new result }
    {
        self.batch.send(writer)
    }

    /// What is answered where a read failed: that, after all that was held was written, or that a
    /// write of this failed. No call on the writer failed before.
    pub(crate) fn unread<W: Write>(&mut self, writer: &mut Counting<W>, query: &Query) -> LogFault
        requires unused { writer.old.failures ≡ 0 }
        ensures ended { (form : TheForm) (old : Option (List ℕ)) (entries : List PlacedCopy)
            → HasGivenOutput query.now form old (W.contents writer.old.inner) self.old entries
            → (query.now.last ≡ false → WrotePlaced query.now form
            (record { before = old; after = W.contents writer.old.inner }) entries)
            → EndsUnread query.now form
            (record { before = old; after = W.contents writer.new.inner }) entries result }
        ensures unread { (result ≡ ReadFailed)
            ⊎ ((query.now.last ≡ true) × ((written : ℕ) × (result ≡ LogFault.Write written))) }
        ensures failed { ((written : ℕ) × (result ≡ LogFault.Write written))
            ↔ (writer.new.failures ≡ 1) }
        ensures once { writer.new.failures ≤ 1 }
    {
        if !query.last {
            return LogFault::Read;
        }
        match self.finish(writer) {
            Ok(()) => LogFault::Read,
            Err(fault) => LogFault::from(fault),
        }
    }

    /// Writes all that waits or is held, where a read failed, and no call on the writer before.
    fn finish<W: Write>(&mut self, writer: &mut Counting<W>) -> Result<(), WriteFault>
        requires unused { writer.old.failures ≡ 0 }
        ensures written { (query : TheQuery) (form : TheForm) (old : Option (List ℕ))
            (entries : List PlacedCopy)
            → HasGivenOutput query form old (W.contents writer.old.inner) self.old entries
            → MatchResult result
            (λ _. WrotePlaced query form
            (record { before = old; after = W.contents writer.new.inner }) entries)
            (λ fault. WrotePlacedPart query form
            (record { before = old; after = W.contents writer.new.inner }) entries
            fault.written) }
        ensures same { (query : TheQuery) (form : TheForm) (old : Option (List ℕ))
            (entries : List PlacedCopy)
            → HasGivenOutput query form old (W.contents writer.old.inner) self.old entries
            → min (self.new.passed + length self.new.held.entries.items) (2 ^ 64 - 1)
            ≡ min (length (chosen_placed query entries)) (2 ^ 64 - 1) }
        ensures counts { FailsOnce writer.new result }
    {
        let batch = &mut self.batch;
        self.held.give_to(batch, writer)?;
        batch.send(writer)
    }

    /// Writes all that waits or is held, where no entry comes any more, and what stands behind the
    /// last one in this form. No call on the writer failed before.
    pub(crate) fn close<W: Write>(
        &mut self,
        writer: &mut Counting<W>,
        form: Form,
    ) -> Result<(), WriteFault>
        requires unused { writer.old.failures ≡ 0 }
        ensures written { (query : TheQuery) (old : Option (List ℕ)) (entries : List PlacedCopy)
            → HasGivenOutput query form old (W.contents writer.old.inner) self.old entries
            → MatchResult result
            (λ _. WrotePlacedToEnd query form
            (record { before = old; after = W.contents writer.new.inner }) entries)
            (λ fault. WrotePlacedPart query form
            (record { before = old; after = W.contents writer.new.inner }) entries
            fault.written) }
        ensures same { (query : TheQuery) (old : Option (List ℕ)) (entries : List PlacedCopy)
            → HasGivenOutput query form old (W.contents writer.old.inner) self.old entries
            → min (self.new.passed + length self.new.held.entries.items) (2 ^ 64 - 1)
            ≡ min (length (chosen_placed query entries)) (2 ^ 64 - 1) }
        ensures counts { FailsOnce writer.new result }
    {
        let end = end_of(form, self.count());
        let batch = &mut self.batch;
        self.held.give_to(batch, writer)?;
        batch.give(writer, end)?;
        batch.send(writer)
    }
}

/// What stands behind the last of so many entries in this form.
fn end_of(form: Form, count: u64) -> &'static [u8]
    ensures { (entries : List PlacedCopy) → count ≡ min (length entries) (2 ^ 64 - 1)
        → result.now ≡ the_end_of form entries }
{
    match form {
        Form::Kept if count > 0 => GATE_BEHIND,
        Form::Log | Form::Json | Form::Kept => b"",
    }
}
