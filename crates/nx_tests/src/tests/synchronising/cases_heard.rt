//! A synchroniser that hears a case, and answers what the case says.

use super::cases::Case;
use nx_code::Word;
use nx_sync::{Role, Step, Synchroniser};
use std::alloc::{AllocError, Global};
use std::process::Abort;

/// A synchroniser, how many elements it heard, and how many changes and words it answered.
#[derive(Drop)]
pub(super) struct Run {
    sync: Synchroniser,
    case: &'static Case,
    heard: usize,
    changes: usize,
    words: usize,
}

impl Run {
    pub(super) fn new(alloc: Global, case: &'static Case) -> Result<Run, AllocError> {
        Ok(Run {
            sync: Synchroniser::new(alloc)?,
            case,
            heard: 0,
            changes: 0,
            words: 0,
        })
    }

    /// Expects that no answer is missing.
    pub(super) fn expect_end(&self, rt: &impl Abort) {
        let name = self.case.name;
        assert_eq!(rt; self.changes, self.case.changes.len(), "{name}: changes");
        assert_eq!(rt;
            word_at(self.case, self.words),
            None,
            "{name}: the next word"
        );
    }

    /// Pushes the elements one by one.
    pub(super) fn push_all(&mut self, rt: &impl Abort) {
        for bit in self.case.bits.bytes() {
            self.push(rt, bit == b'1');
        }
    }

    /// Hears the elements by hunts, by eight words where they keep the lock, by whole words where
    /// as many are there, and by pushes.
    pub(super) fn hear_all(&mut self, rt: &impl Abort) {
        let mut elements = [false; 1200];
        let mut count = 0_usize;
        for (place, bit) in elements.iter_mut().zip(self.case.bits.bytes()) {
            *place = bit == b'1';
            count = count.wrapping_add(1);
        }
        for _ in 0..count {
            self.hear_some(rt, &elements[..count.min(1200)]);
        }
    }

    /// Hears the next of these elements by one call.
    fn hear_some(&mut self, rt: &impl Abort, bits: &[bool]) {
        let rest = &bits[self.heard.min(bits.len())..];
        if !self.sync.is_locked() {
            let count = self.sync.hunt(rest);
            self.heard = self.heard.wrapping_add(count);
            if count > 0 {
                return;
            }
        }
        if self.sync.is_between_words() {
            if let Some(words) = eight_words(rest) {
                if self.sync.keeps_lock(&words) {
                    self.sync.accept(&words);
                    self.note_eight(rt, &words);
                    return;
                }
            }
            if let [a, b, c, d, e, f, g, ..] = *rest {
                let step = self.sync.push_word(&[a, b, c, d, e, f, g]);
                self.heard = self.heard.wrapping_add(7);
                self.note(rt, step);
                return;
            }
        }
        if let [bit, ..] = *rest {
            self.push(rt, bit);
        }
    }

    fn push(&mut self, rt: &impl Abort, bit: bool) {
        let step = self.sync.push(bit);
        self.heard = self.heard.wrapping_add(1);
        self.note(rt, step);
    }

    /// Expects that eight words, the first of which is a DX word, are the next ones of the case.
    fn note_eight(&mut self, rt: &impl Abort, words: &[Word; 8]) {
        let mut role = Role::Dx;
        for word in words {
            self.heard = self.heard.wrapping_add(7);
            self.note_word(rt, *word, role);
            role = other(role);
        }
    }

    /// Expects that what a step brought comes next in the case.
    fn note(&mut self, rt: &impl Abort, step: Step) {
        if let Some(change) = step.change {
            let next = self.case.changes.get(self.changes);
            let brought = (self.heard, change);
            assert_eq!(rt;
                Some(&brought),
                next,
                "{}: change {}",
                self.case.name,
                self.changes
            );
            self.changes = self.changes.wrapping_add(1);
        }
        if let Some((word, role)) = step.word {
            self.note_word(rt, word, role);
        }
    }

    /// Expects that a word comes next in the case.
    fn note_word(&mut self, rt: &impl Abort, word: Word, role: Role) {
        let next = word_at(self.case, self.words);
        let brought = Some((self.heard, role, word.number()));
        assert_eq!(rt; brought, next, "{}: word {}", self.case.name, self.words);
        self.words = self.words.wrapping_add(1);
    }
}

/// The first eight words of elements, where there are as many.
fn eight_words(bits: &[bool]) -> Option<[Word; 8]> {
    let mut words = [Word::from_elements([false; 7]); 8];
    let mut rest = bits;
    for place in 0..8 {
        let [a, b, c, d, e, f, g, ..] = *rest else {
            return None;
        };
        words[place] = Word::from_elements([a, b, c, d, e, f, g]);
        rest = &rest[7..];
    }
    Some(words)
}

/// The word at this index of a case: the number of elements heard by then, its role and its number.
fn word_at(case: &Case, index: usize) -> Option<(usize, Role, u8)> {
    let mut before = 0_usize;
    for (first, role, words) in case.words {
        let place = index.wrapping_sub(before);
        if let Some(word) = words.get(place) {
            let role = if place % 2 == 0 { *role } else { other(*role) };
            return Some((first.wrapping_add(place.wrapping_mul(7)), role, *word));
        }
        before = before.wrapping_add(words.len());
    }
    None
}

/// The role of the word that comes behind one in this role.
fn other(role: Role) -> Role {
    match role {
        Role::Dx => Role::Rx,
        Role::Rx => Role::Dx,
    }
}
