//! Laws of a kept log that is written of the entries of another: what it stands for, and what the
//! next watch remembers. Each function does nothing; its contract is the law.

ghost use Rattle.std.specs.Prelude.{◌≡◌, ℕ, List, ◌∷◌};
ghost use Rattle.std.specs.Io.KnownBytes.{Appends};
ghost use Rattle.nx_copies.specs.copies.Shares.{MarkedCopy};
ghost use Rattle.nx_fec.specs.Transfers.{Contents};
ghost use Rattle.nx_log.specs.LogRun.{WroteToEnd};
ghost use Rattle.nx_log.specs.Query.{chosen};
ghost use Rattle.nx_log.specs.declared.queries.query.Query.{Query};
ghost use Rattle.nx_log.specs.declared.writing.form.Form.TheVariants.{Kept};
ghost use Rattle.nx_watch.specs.Watch.{RestsWithEntries, StandsForEntries, starts_at};
ghost use Rattle.nx_left_on.specs.Chain.{Puts, Watch};
ghost use Rattle.nx_left_on.specs.Written.{IsWrittenOf};

/// What a run over a log writes to its end, in the form of a kept log, is a kept log of the entries
/// that the query chooses. It stands for exactly these. Where there are any, a closed gate stands
/// behind the last, and nothing behind that.
pub fn a_kept_log_is_written_of_the_chosen_entries()
    ensures written { (query : Query) (contents : Contents) (entries : List MarkedCopy)
        → WroteToEnd query Kept contents entries
        → (file : List ℕ) × Appends contents.before contents.after file
        × IsWrittenOf (chosen query entries) file }
    ensures stands { (entries : List MarkedCopy) (file : List ℕ)
        → IsWrittenOf entries file → StandsForEntries entries file }
    ensures only { (entries others : List MarkedCopy) (file : List ℕ)
        → IsWrittenOf entries file → StandsForEntries others file → others ≡ entries }
    ensures rests { (one : MarkedCopy) (entries : List MarkedCopy) (file : List ℕ)
        → IsWrittenOf (one ∷ entries) file → RestsWithEntries (one ∷ entries) file }
{}

/// A watch of such a file starts with what these entries remember, and with nothing else.
pub fn the_next_watch_remembers_the_chosen_entries()
    ensures { (query : Query) (entries log : List MarkedCopy) (file : List ℕ) (watch : Watch)
        → IsWrittenOf (chosen query entries) file → StandsForEntries log file → Puts log watch
        → watch.starts ≡ starts_at watch.moment (chosen query entries) }
{}
