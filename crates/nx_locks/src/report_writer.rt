//! What takes the lines of an air file and shows the locks in their elements of channel 0.

ghost use Rattle.std.specs.Prelude.{◌≡◌, ℕ, [], ◌∷◌, ◌++◌, false, List, Option, MatchResult};
ghost use Rattle.nx_fec.specs.air_files.AirFile.{IsLine, Line};
ghost use Rattle.nx_fec.specs.air_files.AirFile as line;
ghost use Rattle.nx_fec.specs.air_files.Channels.{channel_of, same_channel};
ghost use Rattle.nx_fec.specs.air_files.Scanner.{line_with};
ghost use Rattle.nx_fec.specs.declared.air_files.channel.Channel.{Channel};
ghost use Rattle.nx_fec.specs.declared.air_files.channel.Channel.TheVariants.{Zero};
ghost use Rattle.nx_memory.specs.Selection.{is_vital};
ghost use Rattle.nx_copies.specs.copies.Shares.{all_at_zero};
ghost use Rattle.nx_receiver.specs.private.Listener.{RefusesLine};
ghost use Rattle.nx_locks.specs.private.ReportWriter.{HasClosed, HasFew, IsShowing};
ghost use Rattle.nx_locks.specs.private.Showing.{EndsShown, HearsAll};

use crate::lock_report::LocksReport;
use crate::taker::LockTaker;
use nx_envelope::Letter;
use nx_fec::{Channel, LineKind, PackedElements};
use nx_memory::Selection;
use nx_receiver::{LineRefusal, check_moment};
use nx_sync::{Change, Synchroniser};
use std::marker::Model;

/// Takes the lines of an air file, and shows the locks in their elements of channel 0.
#[derive(Drop)]
pub(crate) struct ReportWriter {
    synchroniser: Synchroniser,
    taker: LockTaker,
    has_moment: bool,
}

impl Model for ReportWriter {
    ghost use Rattle.nx_locks.specs.private.Showing.{Showing};

    ghost Value = { Showing };

    ghost view = { λ s. record {
      synchroniser = s.synchroniser;
      taker = s.taker;
      has_moment = s.has_moment;
    } };

    ghost inverse = { λ v. record {
      synchroniser = v.synchroniser;
      taker = v.taker;
      has_moment = v.has_moment;
    } };
}

impl ReportWriter {
    /// A taker that has taken no line.
    pub(crate) fn new() -> ReportWriter
        ensures { IsShowing result [] [] }
    {
        prove!(size_of::<ReportWriter>() == size_of::<Synchroniser>() + size_of::<LockTaker>() + 8);
        ReportWriter {
            synchroniser: Synchroniser::hunting(),
            taker: LockTaker::new(),
            has_moment: false,
        }
    }

    /// What the line that was taken last shows, or the end of the file.
    pub(crate) fn shown(&self) -> &[u8]
        ensures { result.now ≡ self.now.taker.shown }
    {
        self.taker.shown()
    }

    /// Takes a line of an air file that says this and has these elements, and shows what it brings,
    /// in place of what was shown before. A line that is refused brings nothing.
    pub(crate) fn take(
        &mut self,
        kind: LineKind,
        elements: &PackedElements,
    ) -> Result<(), LineRefusal>
        requires line { IsLine (line_with kind elements.now) }
        ensures { (lines : List Line) (given : List ℕ) → IsShowing self.old lines given
            → HasFew lines elements.now → MatchResult result
            (λ _. IsShowing self.new (lines ++ line_with kind elements.now ∷ [])
            (given ++ self.new.taker.shown))
            (RefusesLine all_at_zero lines (line_with kind elements.now)) }
    {
        self.taker.clear();
        match kind {
            LineKind::Moment(moment) => self.take_moment(moment),
            LineKind::Elements(mark) => self.take_elements(mark, elements),
            LineKind::RefuseSubject(_, byte) => check_subject(Letter::of_capital(byte)),
            // What is selected changes nothing here.
            LineKind::RefuseStation(_, _)
            | LineKind::AcceptStation(_, _)
            | LineKind::AcceptSubject(_, _) => Ok(()),
        }
    }

    /// Takes a moment, which shows nothing. What was shown before is cleared.
    fn take_moment(&mut self, given: u64) -> Result<(), LineRefusal>
        requires { self.old.taker.shown ≡ [] }
        ensures shown { self.new.taker.shown ≡ [] }
        ensures taken { (lines : List Line) (bytes : List ℕ) → IsShowing self.old lines bytes
            → MatchResult result
            (λ _. IsShowing self.new (lines ++ line.moment given ∷ []) bytes)
            (RefusesLine all_at_zero lines (line.moment given)) }
    {
        check_moment(self.taker.moment(), given)?;
        self.taker.set_moment(given);
        self.has_moment = true;
        Ok(())
    }

    /// Takes the elements of a line that names this channel, or none. Shows what they bring where
    /// they are of channel 0, and skips those of other channels. What was shown before is cleared.
    fn take_elements(
        &mut self,
        mark: Option<Channel>,
        elements: &PackedElements,
    ) -> Result<(), LineRefusal>
        requires { self.old.taker.shown ≡ [] }
        ensures { (lines : List Line) (given : List ℕ) → IsShowing self.old lines given
            → HasFew lines elements.now → MatchResult result
            (λ _. IsShowing self.new (lines ++ line.elements mark elements.now ∷ [])
            (given ++ self.new.taker.shown))
            (RefusesLine all_at_zero lines (line.elements mark elements.now)) }
    {
        if !self.has_moment {
            return Err(LineRefusal::NoMoment);
        }
        // Only the locks of channel 0 are shown.
        if is_on_0(mark) {
            self.hear(elements);
        }
        Ok(())
    }

    /// Hears elements, and shows what they bring. What was shown before is cleared.
    fn hear(&mut self, elements: &PackedElements)
        requires { self.old.taker.shown ≡ [] }
        ensures hears { HearsAll self.old self.new elements.now }
    {
        self.taker
            .hear(&mut self.synchroniser, elements.numbers(), elements.len());
    }

    /// Ends the file of so many lines: shows what its end brings, in place of what was shown
    /// before, and counts.
    pub(crate) fn close(&mut self, count: u64) -> LocksReport
        ensures closed { (lines : List Line) (given : List ℕ) → IsShowing self.old lines given
            → HasClosed lines (given ++ self.new.taker.shown) result }
        ensures lines { result.lines ≡ count }
    {
        let elements = self.taker.elements();
        let (locks, copies) = self.end();
        LocksReport {
            lines: count,
            elements,
            locks,
            copies,
        }
    }

    /// Ends the report where the elements end: closes the lock that stands, if one does, and shows
    /// the last line, in place of what was shown before. Answers how many locks there are, and how
    /// many headers stand in their texts.
    fn end(&mut self) -> (u64, u64)
        ensures ends { EndsShown self.old self.new result }
    {
        self.taker.clear();
        if self.synchroniser.is_locked() {
            self.taker.close(Change::Locked);
        }
        self.taker.end()
    }
}

/// Whether a line that names this channel, or none, is of channel 0.
fn is_on_0(mark: Option<Channel>) -> bool
    ensures { result ≡ same_channel (channel_of mark) Zero }
{
    Channel::of(mark) == Channel::Zero
}

/// Whether a subject can be refused.
fn check_subject(subject: Letter) -> Result<(), LineRefusal>
    ensures { (lines : List Line) (mark : Option Channel) → MatchResult result
        (λ _. is_vital subject.byte ≡ false)
        (RefusesLine all_at_zero lines (line.refuse_subject mark subject.byte)) }
{
    Selection::all().refuse_subject(subject)?;
    Ok(())
}
