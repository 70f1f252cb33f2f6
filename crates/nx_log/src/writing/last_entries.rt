//! The last entry of each message, held until a log ends.

ghost use Rattle.std.specs.Prelude.{◌≡◌, ◌++◌, ℕ, List, [], ◌∷◌, map, MatchResult, OnOk, Option, length};
ghost use Rattle.std.specs.List.{concat};
ghost use Rattle.nx_fec.specs.Transfers.{FailsOnce, WroteSome};
ghost use Rattle.nx_fec.specs.air_files.LineRuns.{HasGiven};
ghost use Rattle.nx_log.specs.Last.{last_by};
ghost use Rattle.nx_log.specs.LogRun.{IsInForm};
ghost use Rattle.nx_log.specs.Places.{PlacedCopy, copy_of};
ghost use Rattle.nx_log.specs.private.Held.{AreHeld, SaysHead, held_text, not_replaced};
ghost use Rattle.nx_log.specs.declared.writing.form.Form.{Form as TheForm};

use crate::entries::head::LoggedHead;
use nx_fec::{Batch, Counting, WriteFault};
use std::alloc::{AllocError, Global};
use std::io::Write;

/// An entry that is held: what its head says, and its text in the form in which it is written.
#[derive(Drop)]
pub(crate) struct HeldEntry {
    head: LoggedHead,
    text: Vec<u8>,
}

/// Of entries those that none behind them replaced so far, in order. They take memory.
#[derive(Drop)]
pub(crate) struct LastEntries {
    entries: Vec<HeldEntry>,
}

impl LastEntries {
    /// None.
    pub(crate) fn new(alloc: Global) -> LastEntries
        ensures { result.entries.items ≡ [] }
    {
        LastEntries {
            entries: Vec::new(alloc),
        }
    }

    /// How many are held.
    pub(crate) fn len(&self) -> usize
        ensures { result ≡ length self.now.entries.items }
    {
        self.entries.len()
    }

    /// Takes the next entry, which has this head and this text, and lets those go that it replaces.
    /// `Err` where memory ran out; then they are of no use any more.
    pub(crate) fn take(
        &mut self,
        alloc: Global,
        head: LoggedHead,
        text: &[u8],
    ) -> Result<(), AllocError>
        ensures { (form : TheForm) (one : PlacedCopy) (entries : List PlacedCopy)
            → SaysHead head one.one → IsInForm form one text.now
            → AreHeld form (last_by copy_of entries) self.old.entries.items
            → OnOk result
            (AreHeld form (last_by copy_of (entries ++ one ∷ [])) self.new.entries.items) }
    {
        let text = text.to_vec(alloc)?;
        self.let_go(&head);
        self.entries.push(HeldEntry { head, text })?;
        Ok(())
    }

    /// Lets those go that an entry with this head replaces.
    fn let_go(&mut self, head: &LoggedHead)
        ensures { self.new.entries.items ≡ not_replaced head.now self.old.entries.items }
    {
        self.entries.retain(|held| !head.replaces(&held.head));
    }

    /// Gives the texts of all of them, to a writer of which no call failed before.
    pub(crate) fn give_to<W: Write>(
        &self,
        batch: &mut Batch,
        writer: &mut Counting<W>,
    ) -> Result<(), WriteFault>
        requires unused { writer.old.failures ≡ 0 }
        ensures given { (first : Option (List ℕ)) (before : List ℕ)
            → HasGiven first (W.contents writer.old.inner) batch.old before → MatchResult result
            (λ _. HasGiven first (W.contents writer.new.inner) batch.new
            (before ++ concat (map held_text self.now.entries.items)))
            (λ fault. WroteSome first (W.contents writer.new.inner)
            (before ++ concat (map held_text self.now.entries.items)) fault.written) }
        ensures counts { FailsOnce writer.new result }
    {
        for held in &self.entries {
            batch.give(writer, &held.text)?;
        }
        Ok(())
    }
}
