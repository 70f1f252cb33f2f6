//! The cases of copies: what a finder answers to texts.

use super::super::expect_text;
use nx_code::NEWLINE;
use nx_envelope::{Finder, FinderStep, Found, How, Identity, TextEvent};
use std::alloc::Global;
use std::fmt::Write;
use std::process::Abort;

/// Texts, and what a new finder answers to the bytes of each and then to its end.
///
/// `|` is a newline, here and in the log. The log names each answer with the count of the bytes
/// that it came after. The logs are those of a model of copies that was written apart from this
/// crate, and the last five are worked examples.
static CASES: [(&str, &str); 49] = [
    (
        "ZCZCZC EA01|TEST|NNNN",
        "11 Header EA01; 21 Over full 0/5 TEST|",
    ),
    (
        "ZCZC ZCZC EA01|A|NNNN",
        "14 Header EA01; 21 Over full 0/2 A|",
    ),
    ("ZCZC EA01NNNNN", "9 Header EA01; 13 Over full 0/0 "),
    ("ZCZC EA01||A|NNNN", "9 Header EA01; 17 Over full 0/3 |A|"),
    (
        "ZCZC EA01|NNNZCZC FB02|X*NNNN",
        "9 Header EA01; 17 Over cut 0/3 NNN; 22 Header FB02; 29 Over full 1/2 X*",
    ),
    (
        "ZCZC   QX99ZCZC  AB00|NNN",
        "11 Header QX99; 15 Over cut 0/0 ; 21 Header AB00; End cut 0/3 NNN",
    ),
    ("ZCZCEA01 ZCZC E101 ZCZC EA*1 ZCZC|EA01", ""),
    (
        "ZCZC EA01|ZCZCZCZC EB02|NNNNNNNN",
        "9 Header EA01; 14 Over cut 0/0 ; 23 Header EB02; 28 Over full 0/0 ",
    ),
    ("ZCZC EA01|NNN|NNNN", "9 Header EA01; 18 Over full 0/4 NNN|"),
    ("ZC ZCZC EA012NNNN", "12 Header EA01; 17 Over full 0/1 2"),
    ("ZCZC EA01*N*NNNNN", "9 Header EA01; 16 Over full 2/3 *N*"),
    ("ZCZC ZCZC ZC12|NNNN", "14 Header ZC12; 19 Over full 0/0 "),
    ("NNNNZCZC EA01", "13 Header EA01; End cut 0/0 "),
    ("ZCZC EA01|ZCZ", "9 Header EA01; End cut 0/3 ZCZ"),
    ("ZCZC ea01NNNN", ""),
    ("ZCZC EA1 NNNN ZCZC EAA1NNNN", ""),
    (
        "ZCZC EA01|ZCZC EA01|ZCZC EA01|NNNN",
        "9 Header EA01; 14 Over cut 0/0 ; 19 Header EA01; 24 Over cut 0/0 ; \
         29 Header EA01; 34 Over full 0/0 ",
    ),
    ("ZCZC EA01|****NNNN", "9 Header EA01; 18 Over full 4/4 ****"),
    (
        "ZCZC ZZ10ZCZC ZC10NNNN",
        "9 Header ZZ10; 13 Over cut 0/0 ; 18 Header ZC10; 22 Over full 0/0 ",
    ),
    (
        "XZZCZC FB22| XCZCZC EA01|",
        "11 Header FB22; 19 Over cut 0/3  XC; 24 Header EA01; End cut 0/0 ",
    ),
    (
        "XFB22NNNZCZC QD001AZCZC  FB22",
        "17 Header QD00; 23 Over cut 0/2 1A; 29 Header FB22; End cut 0/0 ",
    ),
    (
        " XZ NNNNZCZCZCZC  NNN0ZCZC  ZCZC QD00",
        "37 Header QD00; End cut 0/0 ",
    ),
    (
        "NNNNZCZC EA01|NNNNZZCZC QD00ZCZC QD00FB22 EA01 ZCZC QD00|CNNN",
        "13 Header EA01; 18 Over full 0/0 ; 28 Header QD00; 32 Over cut 0/0 ; 37 Header QD00; \
         51 Over cut 0/10 FB22 EA01 ; 56 Header QD00; End cut 0/4 CNNN",
    ),
    (
        " EA01ZCZC EA01|XZCZC QD00FB22",
        "14 Header EA01; 20 Over cut 0/1 X; 25 Header QD00; End cut 0/4 FB22",
    ),
    (
        "ZCZC EA01|XFB22EA01ZCZC *ZC",
        "9 Header EA01; 23 Over cut 0/9 XFB22EA01",
    ),
    (
        " ZZCZC EA01|XEA01ZCZC QD00ZCZC EA01|AXZCZC QD00Z",
        "11 Header EA01; 21 Over cut 0/5 XEA01; 26 Header QD00; 30 Over cut 0/0 ; 35 Header EA01; \
         42 Over cut 0/2 AX; 47 Header QD00; End cut 0/1 Z",
    ),
    (
        "A NFB22XZCZC EA01|XFB22NNNN ",
        "17 Header EA01; 27 Over full 0/5 XFB22",
    ),
    (
        "NZCZC QD00ZCZCZC ZCZC QD00ZCZC X* 1",
        "10 Header QD00; 14 Over cut 0/0 ; 26 Header QD00; 30 Over cut 0/0 ",
    ),
    (
        "EA01ZCZC EA010*EA01*",
        "13 Header EA01; End cut 2/7 0*EA01*",
    ),
    ("NNNE |ZCZC QD00", "15 Header QD00; End cut 0/0 "),
    (
        "EA01ZCZCZC EA01|*NNNZCZC  Z |ZC ",
        "15 Header EA01; 24 Over cut 1/4 *NNN",
    ),
    ("ZCZC EA01|NZCZC  Z |X*", "9 Header EA01; 15 Over cut 0/1 N"),
    ("EA01EA01*XCZCZC  NNNZCZCZC ZCZC ", ""),
    ("|XX|9 ", ""),
    ("*FB22NNN", ""),
    ("CNNNNNNN ZCZC XZNZEA01 ", ""),
    ("EA01ZCZC NNNZCE", ""),
    (
        "*NNNFB220*FB22FB22XNZCZC EA01|",
        "29 Header EA01; End cut 0/0 ",
    ),
    (
        "ZCZC EA01|ZCZC XEA01NNN NNNEA01",
        "9 Header EA01; 14 Over cut 0/0 ",
    ),
    (
        "|EA01CFB22*EA011NNNNZCZC EA01|ZCZC EA01|A",
        "29 Header EA01; 34 Over cut 0/0 ; 39 Header EA01; End cut 0/1 A",
    ),
    (
        "FB22EA01ZCZC CZCZC   ZCZNNNNZCZC QD00",
        "37 Header QD00; End cut 0/0 ",
    ),
    ("EA01ZCZC EA01|||9", "13 Header EA01; End cut 0/3 ||9"),
    ("|9ZCZC  ", ""),
    ("Z NNNN FB22ZCZC  EA01", "21 Header EA01; End cut 0/0 "),
    (
        "ZCZC EA01|NNZCZC FB02|X*",
        "9 Header EA01; 16 Over cut 0/2 NN; 21 Header FB02; End cut 1/2 X*",
    ),
    ("ZCZCEA01", ""),
    ("ZCZC E101", ""),
    ("ZCZC EA*1", ""),
    ("ZCZC  EA01", "10 Header EA01; End cut 0/0 "),
];

/// A long text: `before`, so many letters A, and `after`; in the log a run of at least a hundred A
/// is `A^n`.
struct LongCase {
    before: &'static str,
    letters: usize,
    after: &'static str,
    log: &'static str,
}

/// Texts at the limit of 4,100 characters, from the same model.
static LONG_CASES: [LongCase; 9] = [
    LongCase {
        before: "ZCZC EA01|",
        letters: 4096,
        after: "NNNN",
        log: "9 Header EA01; 4110 Over full 0/4096 A^4096",
    },
    LongCase {
        before: "ZCZC EA01|",
        letters: 4097,
        after: "NNNN",
        log: "9 Header EA01; 4110 Over long 0/4100 A^4097NNN",
    },
    LongCase {
        before: "ZCZC EA01",
        letters: 4096,
        after: "NNNN",
        log: "9 Header EA01; 4109 Over full 0/4096 A^4096",
    },
    LongCase {
        before: "ZCZC EA01|",
        letters: 4097,
        after: "ZCZC FB02",
        log: "9 Header EA01; 4110 Over long 0/4100 A^4097ZCZ; 4116 Header FB02; End cut 0/0 ",
    },
    LongCase {
        before: "ZCZC EA01|",
        letters: 4098,
        after: "ZCZC FB02|NNNN",
        log: "9 Header EA01; 4110 Over long 0/4100 A^4098ZC; 4117 Header FB02; 4122 Over full 0/0 ",
    },
    LongCase {
        before: "ZCZC EA01|",
        letters: 4099,
        after: "ZCZC FB02",
        log: "9 Header EA01; 4110 Over long 0/4100 A^4099Z; 4118 Header FB02; End cut 0/0 ",
    },
    LongCase {
        before: "ZCZC EA01|",
        letters: 4100,
        after: "ZCZC FB02",
        log: "9 Header EA01; 4110 Over long 0/4100 A^4100; 4119 Header FB02; End cut 0/0 ",
    },
    LongCase {
        before: "ZCZC EA01|",
        letters: 4099,
        after: "",
        log: "9 Header EA01; End cut 0/4099 A^4099",
    },
    LongCase {
        before: "ZCZC EA01||",
        letters: 4096,
        after: "NNNN",
        log: "9 Header EA01; 4110 Over long 0/4100 |A^4096NNN",
    },
];

/// Writes the letters A of a run, in short where there are many.
fn write_run(rt: &impl Abort, log: &mut String, run: usize) {
    if run >= 100 {
        return write!(log, "A^{run}").expect(rt, "memory");
    }
    for _ in 0..run {
        log.push('A').expect(rt, "memory");
    }
}

/// Writes the end, the errors, the characters and the text of a found copy.
fn write_found(rt: &impl Abort, log: &mut String, found: &Found) {
    let how = match found.how {
        How::Full => "full",
        How::Cut => "cut",
        How::Long => "long",
    };
    let errors = found.errors;
    let characters = found.text.len();
    write!(log, " {how} {errors}/{characters} ").expect(rt, "memory");
    let mut run = 0usize;
    for byte in found.text.as_slice() {
        if *byte == b'A' {
            run = run.saturating_add(1);
        } else {
            write_run(rt, log, run);
            run = 0;
            let shown = if *byte == NEWLINE { b'|' } else { *byte };
            log.push(char::from(shown)).expect(rt, "memory");
        }
    }
    write_run(rt, log, run);
}

/// A finder and the log of its answers.
#[derive(Drop)]
struct Hearing {
    finder: Finder,
    heard: usize,
    log: String,
}

impl Hearing {
    /// Puts what parts two answers before the next one.
    fn part(&mut self, rt: &impl Abort) {
        if !self.log.is_empty() {
            self.log.push_str("; ").expect(rt, "memory");
        }
    }

    /// Hands the finder a byte and notes its answer.
    fn hear(&mut self, rt: &impl Abort, byte: u8) {
        self.heard = self.heard.saturating_add(1);
        let heard = self.heard;
        match self.finder.hear(byte) {
            TextEvent::Nothing => {}
            TextEvent::Header(identity) => {
                self.part(rt);
                let [b1, b2, tens, units] = identity.bytes().map(char::from);
                write!(self.log, "{heard} Header {b1}{b2}{tens}{units}").expect(rt, "memory");
            }
            TextEvent::CopyOver => {
                self.part(rt);
                write!(self.log, "{heard} Over").expect(rt, "memory");
                if let Some(found) = self.finder.take_found() {
                    write_found(rt, &mut self.log, &found);
                }
            }
        }
    }

    /// Hands the finder the bytes of a text.
    fn hear_text(&mut self, rt: &impl Abort, text: &str) {
        for byte in text.as_bytes() {
            self.hear(rt, if *byte == b'|' { NEWLINE } else { *byte });
        }
    }

    /// Ends the text.
    fn end(&mut self, rt: &impl Abort) {
        if let Some(found) = self.finder.end() {
            self.part(rt);
            self.log.push_str("End").expect(rt, "memory");
            write_found(rt, &mut self.log, &found);
        }
    }
}

/// The log of a text: `before`, so many letters A, and `after`.
fn log_of(rt: &impl Abort, alloc: Global, before: &str, letters: usize, after: &str) -> String {
    let mut hearing = Hearing {
        finder: Finder::new(),
        heard: 0,
        log: String::new(alloc),
    };
    hearing.hear_text(rt, before);
    for _ in 0..letters {
        hearing.hear(rt, b'A');
    }
    hearing.hear_text(rt, after);
    hearing.end(rt);
    let Hearing { log, .. } = hearing;
    log
}

#[test]
fn finder_finds_copies(rt: HostRuntime) {
    for (text, log) in CASES.iter() {
        let answers = log_of(&rt, rt.alloc(), text, 0, "");
        assert_eq!(rt; answers.as_str(), *log, "{text}");
    }
    for case in LONG_CASES.iter() {
        let answers = log_of(&rt, rt.alloc(), case.before, case.letters, case.after);
        assert_eq!(rt; answers.as_str(), case.log, "{}", case.log);
    }
}

#[test]
fn steps_hand_out_what_is_found(rt: HostRuntime) {
    let mut finder = Finder::new();
    let identity = Identity::new(b'E', b'A', 1).expect(&rt, "identity");
    for byte in b"ZCZC EA0".iter() {
        assert!(rt; matches!(finder.push(*byte), FinderStep::Nothing), "{byte}");
    }
    let FinderStep::Header(named) = finder.push(b'1') else {
        rt.panic("no header")
    };
    assert_eq!(rt; named, identity);
    for byte in b"\nA*NNN".iter() {
        assert!(rt; matches!(finder.push(*byte), FinderStep::Nothing), "{byte}");
    }
    let FinderStep::Over(found) = finder.push(b'N') else {
        rt.panic("no copy")
    };
    assert_eq!(rt; found.identity, identity);
    expect_text(&rt, "found", found.text.as_slice(), b"A*");
    assert_eq!(rt; found.errors, 1);
    assert_eq!(rt; found.how, How::Full);
}
