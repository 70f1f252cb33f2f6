//! Which stations and subjects a receiver prints.

ghost use Rattle.std.specs.Prelude.{◌≡◌, ◌↔◌, false, not, IsTrue, IsErr, IfErr, OnOk, OnErr};
ghost use Rattle.std.specs.FinSet as set;
ghost use Rattle.nx_memory.specs.Selection.{IsRefusable, is_vital, admits};
ghost use Rattle.nx_memory.specs.StateText.{rising};

use crate::letter_set::{LETTERS, LetterSet};
use arrayvec::ArrayVec;
use nx_envelope::{Identity, Letter};
use std::marker::Model;
use thiserror::Error;

/// The refusal to leave out a subject that every receiver has to print: A, B, D or L (ITU-R M.540).
#[derive(Clone, Copy, PartialEq, Eq, Debug, Error)]
#[error("subject {subject} can't be refused")]
pub struct Vital {
    /// The subject that was to be refused.
    pub subject: Letter,
}

/// The stations and the subjects that are refused, at first none. Contracts see it as these two
/// sets of letters, which hold nothing but letters and no vital subject.
#[derive(Clone, Copy)]
pub struct Selection {
    refused_stations: LetterSet,
    refused_subjects: LetterSet,
}

impl Model for Selection {
    ghost use Rattle.nx_memory.specs.private.RefusedCode.{refused_code};
    ghost use Rattle.nx_memory.specs.Selection.{Refused, IsRefusable};

    ghost Value = { Refused };

    ghost coded = { refused_code };

    ghost view = { λ s. record { stations = s.refused_stations; subjects = s.refused_subjects } };

    ghost invariant = { λ s. IsRefusable (record {
      stations = s.refused_stations;
      subjects = s.refused_subjects;
    }) };

    ghost inverse = { λ refused. record {
      refused_stations = refused.stations;
      refused_subjects = refused.subjects;
    } };
}

#[tactic(auto, using(crate::proofs::lemmas::Letters::changes))]
impl Selection {
    /// Everything is selected.
    pub fn all() -> Self
        ensures stations { result.stations ≡ set.empty }
        ensures subjects { result.subjects ≡ set.empty }
    {
        Selection {
            refused_stations: LetterSet::new(),
            refused_subjects: LetterSet::new(),
        }
    }

    /// Refuses the station, for all its subjects. To refuse it again changes nothing.
    pub fn refuse_station(&mut self, station: Letter)
        ensures refused { self.new
            ≡ record self.old { stations = set.insert self.old.stations station.byte } }
        ensures again { IsTrue (set.contains self.old.stations station.byte) → self.new ≡ self.old }
    {
        self.refused_stations.insert(station);
    }

    /// Refuses the station no longer. Where it wasn't refused nothing changes.
    pub fn accept_station(&mut self, station: Letter)
        ensures accepted { self.new
            ≡ record self.old { stations = set.remove self.old.stations station.byte } }
        ensures again { set.contains self.old.stations station.byte ≡ false → self.new ≡ self.old }
    {
        self.refused_stations.remove(station);
    }

    /// Refuses the subject no longer. Where it wasn't refused nothing changes.
    pub fn accept_subject(&mut self, subject: Letter)
        ensures accepted { self.new
            ≡ record self.old { subjects = set.remove self.old.subjects subject.byte } }
        ensures again { set.contains self.old.subjects subject.byte ≡ false → self.new ≡ self.old }
    {
        self.refused_subjects.remove(subject);
    }

    /// Refuses the subject, of all stations. To refuse it again changes nothing. `Vital` where it
    /// is A, B, D or L; the selection then stays as it was.
    #[tactic(auto, using(crate::proofs::lemmas::Letters::changes, crate::proofs::lemmas::Letters::kept))]
    pub fn refuse_subject(&mut self, subject: Letter) -> Result<(), Vital>
        ensures vital { IsErr result ↔ IsTrue (is_vital subject.byte) }
        ensures fault { IfErr result (λ vital. vital.subject ≡ subject) }
        ensures refused { OnOk result (
            self.new ≡ record self.old { subjects = set.insert self.old.subjects subject.byte }) }
        ensures again { OnOk result (
            IsTrue (set.contains self.old.subjects subject.byte) → self.new ≡ self.old) }
        ensures unchanged { OnErr result (self.new ≡ self.old) }
    {
        if is_vital_subject(subject.byte()) {
            return Err(Vital { subject });
        }
        self.refused_subjects.insert(subject);
        Ok(())
    }

    /// Whether the station is refused, for all its subjects.
    pub fn refuses_station(&self, station: Letter) -> bool
        ensures refused { result ≡ set.contains self.now.stations station.byte }
        ensures refusable { IsRefusable self.now }
    {
        self.refused_stations.contains(station)
    }

    /// Whether the subject is refused, of all stations.
    pub fn refuses_subject(&self, subject: Letter) -> bool
        ensures refused { result ≡ set.contains self.now.subjects subject.byte }
        ensures refusable { IsRefusable self.now }
    {
        self.refused_subjects.contains(subject)
    }

    /// The refused stations in rising order, each by its letter's byte.
    pub(crate) fn refused_stations(&self) -> ArrayVec<u8, LETTERS>
        ensures letters { result.items ≡ rising self.now.stations }
        ensures refusable { IsRefusable self.now }
    {
        self.refused_stations.letters()
    }

    /// The refused subjects in rising order, each by its letter's byte.
    pub(crate) fn refused_subjects(&self) -> ArrayVec<u8, LETTERS>
        ensures letters { result.items ≡ rising self.now.subjects }
        ensures refusable { IsRefusable self.now }
    {
        self.refused_subjects.letters()
    }

    /// Whether neither the station nor the subject is refused. A vital subject never is.
    pub fn admits(&self, identity: &Identity) -> bool
        ensures selected { result ≡ admits self.now identity.now }
        ensures vital { IsTrue (is_vital identity.now.b2.byte)
            → result ≡ not (set.contains self.now.stations identity.now.b1.byte) }
        ensures refusable { IsRefusable self.now }
    {
        !self.refused_stations.contains(identity.b1) && !self.refused_subjects.contains(identity.b2)
    }
}

/// Whether the subject of this byte is A, B, D or L, which can't be refused (ITU-R M.540).
pub fn is_vital_subject(subject: u8) -> bool
    ensures { result ≡ is_vital subject }
{
    matches!(subject, b'A' | b'B' | b'D' | b'L')
}
