//! Laws of headers, copies and moments: each holds by its contract alone, and the call does
//! nothing.

ghost use Rattle.std.specs.Prelude.{◌≡◌, ◌↔◌, ◌<◌, ◌≤◌, ◌++◌, [], ℕ, Contains, List, Option, IsTrue, None, Some, length, map};
ghost use Rattle.std.specs.List.{AllZip};
ghost use Rattle.nx_envelope.specs.AtTheEnd.{identity_at_end, marker_at_end};
ghost use Rattle.nx_envelope.specs.Header.{ComesBefore, EndsWithHeader, EndsWithMarker, Header, StandsIn};
ghost use Rattle.nx_envelope.specs.Copies.{Ending, closed_copy, copies, headers, ended_copies, ending_of, open_headers};
ghost use Rattle.nx_envelope.specs.Finder.{Closes};
ghost use Rattle.nx_envelope.specs.Found.{IsFound};
ghost use Rattle.nx_envelope.specs.Ending.{IsEnding, IsUnended};
ghost use Rattle.nx_envelope.specs.Identity.{same_identity};
ghost use Rattle.nx_envelope.specs.Laws.{AreAnswers, Grows, copies_handed_out};
ghost use Rattle.nx_envelope.specs.Moment.{HasText, IsShownAs, last_moment};
ghost use Rattle.nx_envelope.specs.declared.found.FinderStep.{FinderStep};
ghost use Rattle.nx_envelope.specs.declared.found.Found.{Found};
ghost use Rattle.nx_envelope.specs.declared.found.How.{How};
ghost use Rattle.nx_envelope.specs.declared.identity.Identity.{Identity};

/// A text ends with a marker that ends a copy in a way, as it is looked for there, exactly where it
/// is spelled so: `NNNN` as full, `ZCZC` as cut.
pub fn markers_are_spelled()
    ensures { (text : List ℕ) (how : How) → (marker_at_end text ≡ Some how)
        ↔ EndsWithMarker text how }
{}

/// Headers, copies and their ends come in one order; at most one copy is open, and it is the last.
pub fn copies_come_in_order()
    ensures one_open { (text : List ℕ) → length (open_headers text) ≤ 1 }
    ensures open_last { (text : List ℕ) →
        copies text ≡ ended_copies text ++ map (closed_copy text) (open_headers text) }
    ensures ended_stay { (text more : List ℕ) → Grows text more }
{}

/// Over a whole text, what a finder hands out at its bytes and then at its end are the copies of
/// the text, in order.
pub fn copies_are_handed_out()
    ensures { (text : List ℕ) (answers : List FinderStep) (last : Option Found)
        → AreAnswers [] text answers
        → Closes text last → AllZip IsFound (copies text) (copies_handed_out answers last) }
{}

/// The headers of a text are those that stand in it, at any index.
pub fn headers_stand_anywhere()
    ensures { (text : List ℕ) (header : Header) → Contains (headers text) header
        ↔ StandsIn text header }
{}

/// The headers of a text come in rising order, each once: one that comes later stands later.
pub fn headers_rise()
    ensures { (text : List ℕ) (earlier later : Header) → ComesBefore (headers text) earlier later
        → earlier.behind < later.behind }
{}

/// A copy ends at the least place, within 4,100 characters of its raw text, where a marker ends,
/// and is full or cut by which marker it is. It is long exactly where there is no such place and
/// 4,100 characters stand there. Else it has not ended.
pub fn copies_end_at_the_least_marker()
    ensures ended { (raw : List ℕ) (ending : Ending) → (ending_of raw ≡ Some ending)
        ↔ IsEnding raw ending }
    ensures unended { (raw : List ℕ) → (ending_of raw ≡ None) ↔ IsUnended raw }
{}

/// Two identities name one message exactly where they are equal.
pub fn same_identity_is_equality()
    ensures { (a b : Identity) → IsTrue (same_identity a b) ↔ (a ≡ b) }
{}

/// A text ends with a header, as it is looked for at each place of the text, exactly where it is
/// spelled `ZCZC`, one or more spaces, two letters and two digits.
pub fn header_is_spelled()
    ensures { (text : List ℕ) (identity : Identity) →
        (identity_at_end text ≡ Some identity) ↔ EndsWithHeader text identity }
{}

/// Every moment to the last one has a civil text.
pub fn every_moment_has_a_text()
    ensures { (moment : ℕ) → moment ≤ last_moment → HasText moment }
{}

/// A moment has one civil text: two texts that show it are the same.
pub fn a_moment_has_one_text()
    ensures { (moment : ℕ) (text other : List ℕ) → IsShownAs moment text → IsShownAs moment other
        → text ≡ other }
{}
