//! What lines did, by what the receivers answered, and which one ends the watch.

ghost use Rattle.std.specs.Prelude.{◌≡◌, ◌+◌, ◌^◌, ◌<◌, ◌≤◌, ℕ, List, [], ◌∷◌, ◌++◌, Option, Some, None, Err, IsSome, MatchResult, OnOk, true, false};
ghost use Rattle.nx_fec.specs.air_files.AirFile.{Line, moment};
ghost use Rattle.nx_fec.specs.air_files.Scanner.{kind_of};
ghost use Rattle.nx_receiver.specs.Moments.{Refuses};
ghost use Rattle.nx_watch.specs.declared.lines.line_effects.LineEffects.{LineEffects as TheEffects};
ghost use Rattle.nx_watch.specs.declared.lines.line_effects.StartMoments.{StartMoments as TheStart};
ghost use Rattle.nx_watch.specs.Acting.{acts, given, in_force, is_far_back as far_back, moment_said, moments_behind};
ghost use Rattle.nx_watch.specs.private.LineRun.{AreCounted, MayAct};
ghost use Rattle.nx_watch.specs.private.Effects.{is_acting, IsAnswer, IsEffect, IsKept, IsStartBefore, KeepsMoments, SameCounts, said_behind, set_by};

use crate::lines::no_effect::NoEffect;
use crate::lines::refusal::Refusal;
use nx_fec::LineKind;
use nx_memory::is_recent;
use nx_receiver::MomentFault;

/// The moments with which a watch starts, in whole seconds since 1970-01-01 00:00:00 UTC.
#[derive(Clone, Copy, Debug, PartialEq, Eq)]
pub struct StartMoments {
    /// The newest one that it remembers, or 0. It is in force at first.
    pub newest: u64,
    /// The moment at which it starts. Elements that come before any moment set it, or the newest
    /// remembered one where that is later. One past the year 2999 isn't set.
    pub started: u64,
}

/// What a run over lines read.
#[derive(Clone, Copy, Debug, PartialEq, Eq)]
pub struct LinesWatched {
    /// How many lines there were, a cut last one too.
    pub lines: u64,
    /// How many of them had no effect.
    pub without_effect: u64,
    /// The first of these, where lines count from 1.
    pub first_without_effect: Option<u64>,
}

/// What is kept of the lines of a watch.
#[derive(Clone, Copy, Debug)]
pub(crate) struct LineEffects {
    /// The moment that elements set which come before any: the one at which the watch started, or
    /// the newest one that it remembered, where that is later.
    start: u64,
    /// Whether a line said a moment in range, or set the one of the start.
    has_moment: bool,
    /// Whether the last moment in range went back by 66 hours or more.
    went_far_back: bool,
    /// How many lines there were.
    lines: u64,
    /// How many of them had no effect.
    without_effect: u64,
    /// The first of these, where lines count from 1.
    first_without: Option<u64>,
}

/// What a line does.
#[derive(Clone, Copy, Debug)]
pub(crate) enum Effect {
    /// It acts.
    Acts,
    /// It has no effect, for this reason.
    Nothing(NoEffect),
    /// It has no effect, and ends the watch: it goes back from the last moment to the given one.
    Ends { last: u64, given: u64 },
}

// They hold a fixed number of bytes.
const _: () = prove!(size_of::<LineEffects>() == 48);

impl LineEffects {
    /// Before the first line of a watch that starts so.
    pub(crate) fn new(first: StartMoments) -> LineEffects
        ensures { IsKept first [] result }
    {
        LineEffects {
            start: first.newest.max(first.started),
            has_moment: false,
            went_far_back: false,
            lines: 0,
            without_effect: 0,
            first_without: None,
        }
    }

    /// How many lines there were.
    pub(crate) fn lines(&self) -> u64
        ensures { result ≡ self.now.lines }
    {
        self.lines
    }

    /// How many lines had no effect.
    pub(crate) fn without_effect(&self) -> u64
        ensures { result ≡ self.now.without_effect }
    {
        self.without_effect
    }

    /// The first line without effect.
    pub(crate) fn first_without(&self) -> Option<u64>
        ensures { result ≡ self.now.first_without }
    {
        self.first_without
    }

    /// The counts of these lines.
    pub(crate) fn counts(&self) -> LinesWatched
        ensures { (first : TheStart) (lines : List (Option Line)) → IsKept first lines self.now
            → AreCounted first lines result }
    {
        LinesWatched {
            lines: self.lines,
            without_effect: self.without_effect,
            first_without_effect: self.first_without,
        }
    }

    /// The moment that this line sets before it acts: that of the start, where these are elements
    /// and no moment in range came before them.
    #[inline(always)]
    pub(crate) fn start_before(&self, kind: LineKind) -> Option<u64>
        ensures { (first : TheStart) (moments : List ℕ) (line : Line) → kind_of line ≡ kind
            → KeepsMoments first moments self.now → IsStartBefore first moments line result }
    {
        if self.has_moment {
            return None;
        }
        match kind {
            LineKind::Elements(_) => Some(self.start),
            LineKind::Moment(_)
            | LineKind::RefuseStation(_, _)
            | LineKind::AcceptStation(_, _)
            | LineKind::RefuseSubject(_, _)
            | LineKind::AcceptSubject(_, _) => None,
        }
    }

    /// Keeps whether the receivers set the moment of the start.
    pub(crate) fn start_set(&mut self, answer: Result<(), MomentFault>)
        ensures set { (first : TheStart) (n : ℕ) → n ≡ given first → KeepsMoments first [] self.old
            → MatchResult answer (λ _. KeepsMoments first (n ∷ []) self.new)
            (λ _. KeepsMoments first [] self.new) }
        ensures counts { SameCounts self.old self.new }
    {
        self.has_moment = answer.is_ok();
    }

    /// Keeps what a line of an air file did, to which the receivers answered so, and answers that.
    #[inline(always)]
    pub(crate) fn line(&mut self, kind: LineKind, answer: Result<(), Refusal>) -> Effect
        requires room { self.old.lines < 2 ^ 63 }
        requires fewer { self.old.without_effect ≤ self.old.lines }
        ensures kept { (first : TheStart) (lines : List (Option Line)) (line : Line)
            (before : TheEffects) → kind_of line ≡ kind
            → IsAnswer (in_force first.newest (moments_behind first lines)) line answer
            → IsKept first lines before → SameCounts before self.old
            → KeepsMoments first
            (moments_behind first lines ++ set_by first (moments_behind first lines) line)
            self.old
            → IsKept first (lines ++ Some line ∷ []) self.new
            × IsEffect first (moments_behind first lines) (Some line) result }
        ensures taken { OnOk answer (is_acting result ≡ true) }
        ensures lines { self.new.lines ≡ self.old.lines + 1 }
        ensures fewer { self.new.without_effect ≤ self.new.lines }
        ensures first { IsSome self.old.first_without
            → self.new.first_without ≡ self.old.first_without }
        ensures none { is_acting result ≡ false → self.old.first_without ≡ None
            → self.new.first_without ≡ Some self.new.lines }
        ensures acting { is_acting result ≡ true → self.new.first_without ≡ self.old.first_without }
    {
        let effect = self.effect_of(kind, answer);
        self.count(effect.is_acting());
        effect
    }

    /// Keeps that a line isn't understood.
    pub(crate) fn not_understood(&mut self)
        requires room { self.old.lines < 2 ^ 63 }
        requires fewer { self.old.without_effect ≤ self.old.lines }
        ensures kept { (first : TheStart) (lines : List (Option Line)) → IsKept first lines self.old
            → IsKept first (lines ++ None ∷ []) self.new }
        ensures lines { self.new.lines ≡ self.old.lines + 1 }
        ensures fewer { self.new.without_effect ≤ self.new.lines }
        ensures first { IsSome self.old.first_without
            → self.new.first_without ≡ self.old.first_without }
        ensures none { self.old.first_without ≡ None
            → self.new.first_without ≡ Some self.new.lines }
    {
        self.count(false);
    }

    /// What a line does to which the receivers answered so; keeps the moment in range that it says,
    /// if it says one.
    #[inline(always)]
    fn effect_of(&mut self, kind: LineKind, answer: Result<(), Refusal>) -> Effect
        ensures kept { (first : TheStart) (moments : List ℕ) (line : Line)
            → kind_of line ≡ kind → IsAnswer (in_force first.newest moments) line answer
            → KeepsMoments first (moments ++ set_by first moments line) self.old
            → KeepsMoments first (moments ++ said_behind first moments (Some line)) self.new
            × IsEffect first moments (Some line) result }
        ensures taken { OnOk answer (is_acting result ≡ true) }
        ensures counts { SameCounts self.old self.new }
    {
        match answer {
            Ok(()) => {
                self.keep_said(kind);
                Effect::Acts
            }
            Err(why) => self.effect_of_refusal(why),
        }
    }

    /// Keeps the moment of a line that the receivers took, if it says one.
    #[inline(always)]
    fn keep_said(&mut self, kind: LineKind)
        ensures kept { (first : TheStart) (moments : List ℕ) (line : Line)
            → kind_of line ≡ kind → MayAct (in_force first.newest moments) [] line
            → KeepsMoments first (moments ++ set_by first moments line) self.old
            → KeepsMoments first (moments ++ said_behind first moments (Some line)) self.new }
        ensures counts { SameCounts self.old self.new }
    {
        match kind {
            LineKind::Moment(_) => {
                self.keep_moment(false);
            }
            LineKind::Elements(_)
            | LineKind::RefuseStation(_, _)
            | LineKind::AcceptStation(_, _)
            | LineKind::RefuseSubject(_, _)
            | LineKind::AcceptSubject(_, _) => {}
        }
    }

    /// What a line does that the receivers refuse so; keeps the moment in range that it says, if it
    /// says one.
    fn effect_of_refusal(&mut self, why: Refusal) -> Effect
        ensures kept { (first : TheStart) (moments : List ℕ) (line : Line)
            → IsAnswer (in_force first.newest moments) line (Err why)
            → KeepsMoments first (moments ++ set_by first moments line) self.old
            → KeepsMoments first (moments ++ said_behind first moments (Some line)) self.new
            × IsEffect first moments (Some line) result }
        ensures counts { SameCounts self.old self.new }
    {
        match why {
            Refusal::Moment(fault) => self.effect_of_fault(fault),
            Refusal::Vital => Effect::Nothing(NoEffect::Vital),
        }
    }

    /// What a moment does that the receivers refuse so; keeps one in range, which goes back.
    fn effect_of_fault(&mut self, fault: MomentFault) -> Effect
        ensures kept { (first : TheStart) (moments : List ℕ) (n : ℕ)
            → Refuses (in_force first.newest moments) n fault → KeepsMoments first moments self.old
            → KeepsMoments first (moments ++ moment_said (Some (moment n))) self.new
            × IsEffect first moments (Some (moment n)) result }
        ensures counts { SameCounts self.old self.new }
    {
        match fault {
            MomentFault::Range { given: _ } => Effect::Nothing(NoEffect::PastLast),
            MomentFault::Back { last, given } => {
                let is_far_back = !is_recent(given, last);
                let went_far_back = self.keep_moment(is_far_back);
                if is_far_back && went_far_back {
                    return Effect::Ends { last, given };
                }
                Effect::Nothing(NoEffect::GoesBack)
            }
        }
    }

    /// Keeps that a moment in range was said, and whether it went back by 66 hours or more. Answers
    /// whether the one before it did.
    fn keep_moment(&mut self, is_far_back: bool) -> bool
        ensures far { result ≡ self.old.went_far_back }
        ensures kept { (first : TheStart) (moments : List ℕ) (n : ℕ)
            → is_far_back ≡ far_back first.newest moments n
            → KeepsMoments first moments self.old
            → KeepsMoments first (moments ++ n ∷ []) self.new }
        ensures counts { SameCounts self.old self.new }
    {
        let went_far_back = self.went_far_back;
        self.has_moment = true;
        self.went_far_back = is_far_back;
        went_far_back
    }

    /// Counts a line.
    #[inline(always)]
    fn count(&mut self, acted: bool)
        requires room { self.old.lines < 2 ^ 63 }
        requires fewer { self.old.without_effect ≤ self.old.lines }
        ensures kept { (first : TheStart) (lines : List (Option Line)) (line : Option Line)
            (before : TheEffects) → IsKept first lines before → SameCounts before self.old
            → acted ≡ acts first.newest (moments_behind first lines) line
            → KeepsMoments first
            (moments_behind first lines ++ said_behind first (moments_behind first lines) line)
            self.old
            → IsKept first (lines ++ line ∷ []) self.new }
        ensures lines { self.new.lines ≡ self.old.lines + 1 }
        ensures fewer { self.new.without_effect ≤ self.new.lines }
        ensures first { IsSome self.old.first_without
            → self.new.first_without ≡ self.old.first_without }
        ensures none { acted ≡ false → self.old.first_without ≡ None
            → self.new.first_without ≡ Some self.new.lines }
        ensures acting { acted ≡ true → self.new.first_without ≡ self.old.first_without }
    {
        self.lines += 1;
        if acted {
            return;
        }
        self.without_effect += 1;
        if self.first_without.is_none() {
            self.first_without = Some(self.lines);
        }
    }
}

impl Effect {
    /// Whether the line acts.
    #[inline(always)]
    fn is_acting(self) -> bool
        ensures { result ≡ is_acting self }
    {
        matches!(self, Effect::Acts)
    }
}
