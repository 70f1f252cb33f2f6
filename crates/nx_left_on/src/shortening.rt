//! Laws of a log that was shortened: a watch over it does what it would do over the whole one. Each
//! function does nothing; its contract is the law.

ghost use Rattle.std.specs.Prelude.{◌≡◌, ◌↔◌, ◌+◌, ◌<◌, ◌≤◌, ℕ, List, [], ◌++◌, Option, ⊤};
ghost use Rattle.nx_copies.specs.copies.Shares.{MarkedCopy};
ghost use Rattle.nx_fec.specs.air_files.AirFile.{Line};
ghost use Rattle.nx_receiver.specs.air_file_runs.Listen.{given_by};
ghost use Rattle.nx_watch.specs.Acting.{effects};
ghost use Rattle.nx_watch.specs.Watch.{HasRead, PrintsUntil, Stop, moments_at, starts_at};
ghost use Rattle.nx_fec.specs.declared.air_files.channel.Channel.{Channel};
ghost use Rattle.nx_log.specs.Logged.{remembered_on};
ghost use Rattle.nx_log.specs.Query.{chosen};
ghost use Rattle.nx_log.specs.declared.queries.query.Query.{Query};
ghost use Rattle.nx_memory.specs.Content.{IsContent};
ghost use Rattle.nx_memory.specs.Memory.{seconds_known};
ghost use Rattle.nx_left_on.specs.Chain.{ClocksAreNear, IsChain, Watch, acting_at, all_put};
ghost use Rattle.nx_left_on.specs.Shortened.{AreInOrder, AsksSince, HearsFrom, LeavesOutOld};

/// A watch over a shortened log does what it would do over the whole one. What the whole log
/// remembers on each channel is entries that are 66 hours old at some moment, or older, and then
/// what the shorter one remembers; and nothing is heard before that moment. Then of any lines the
/// same act, so as many have no effect, and they print the same, however the watch stops. Of any
/// bytes it reads the same lines until it stops so. What is heard lies behind the newest moment
/// that the whole log remembers. So where the entries left out lie 66 hours or more before that
/// one, this holds of all bytes.
pub fn a_watch_over_a_shortened_log_does_the_same()
    ensures acts { (moment now : ℕ) (whole shorter : List MarkedCopy) (lines : List (Option Line))
        → LeavesOutOld moment whole shorter
        → HearsFrom moment (moments_at now (starts_at now whole)) lines
        → acting_at now shorter lines ≡ acting_at now whole lines }
    ensures tells { (moment now : ℕ) (whole shorter : List MarkedCopy)
        (lines : List (Option Line))
        → LeavesOutOld moment whole shorter
        → HearsFrom moment (moments_at now (starts_at now whole)) lines
        → effects (moments_at now (starts_at now shorter)) [] lines
        ≡ effects (moments_at now (starts_at now whole)) [] lines }
    ensures prints { (moment now : ℕ) (whole shorter : List MarkedCopy)
        (lines : List (Option Line)) (stop : Stop) (copies : List MarkedCopy)
        → LeavesOutOld moment whole shorter
        → HearsFrom moment (moments_at now (starts_at now whole)) lines
        → PrintsUntil stop (starts_at now whole) (given_by (acting_at now whole lines)) copies
        ↔ PrintsUntil stop (starts_at now shorter) (given_by (acting_at now shorter lines))
        copies }
    ensures reads { (moment now : ℕ) (whole shorter : List MarkedCopy)
        (stop : Stop) (bytes : List ℕ) (lines : List (Option Line))
        → LeavesOutOld moment whole shorter
        → HearsFrom moment (moments_at now (starts_at now whole)) lines
        → HasRead ⊤ (moments_at now (starts_at now whole)) stop bytes lines
        ↔ HasRead ⊤ (moments_at now (starts_at now shorter)) stop bytes lines }
{}

/// What is put behind a shortened log leaves it so: whatever is put, what the whole log would then
/// remember is entries that are as old, and then what the shorter one remembers. So each later
/// watch does what it would do over the whole log too.
pub fn a_shortened_log_stays_so()
    ensures { (moment : ℕ) (whole shorter put : List MarkedCopy)
        → LeavesOutOld moment whole shorter
        → LeavesOutOld moment (whole ++ put) (shorter ++ put) }
{}

/// A log is shortened so by a query for all entries since some moment that lies 66 hours or more
/// before the other one, where on each channel the entries that count for a memory stand in the
/// order of their moments.
pub fn a_query_since_a_moment_leaves_out_what_is_old()
    ensures { (first moment : ℕ) (query : Query) (entries : List MarkedCopy)
        → AsksSince first query → AreInOrder entries → first + seconds_known ≤ moment
        → LeavesOutOld moment entries (chosen query entries) }
{}

/// So does the log of a chain of watches stand, however they ended, where no MOMENT lies 66 hours
/// or more before the newest entry, and the log stood so at first and remembered what a memory can
/// hold. An empty log does both.
pub fn a_chain_of_watches_keeps_its_log_in_order()
    ensures order { (log : List MarkedCopy) (watches : List Watch)
        → ((channel : Channel) → IsContent (remembered_on channel log)) → AreInOrder log
        → IsChain log watches → ((channel : Channel) → ClocksAreNear channel log watches)
        → AreInOrder (log ++ all_put watches) }
    ensures empty { AreInOrder [] }
{}
