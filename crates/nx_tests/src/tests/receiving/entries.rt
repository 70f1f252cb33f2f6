//! Entries as they are printed.

use super::super::{FIRST, expect_text, first_copy, shown};
use nx_fec::{Channel, Counting};
use nx_receiver::{Entry, entry_text, entry_text_on};
use std::alloc::Global;

/// What is printed of the first copy of a text, at the first moment on this channel.
fn printed(alloc: Global, text: &[u8], channel: Channel) -> Option<Vec<u8>> {
    let entry = Entry::new(first_copy(text)?, FIRST);
    let mut writer = Counting::new(Vec::new(alloc));
    entry_text_on(&entry, channel, &mut writer).ok()?;
    Some(writer.into_inner())
}

/// The mark of a channel stands directly behind the identity.
#[test]
fn entries_of_texts(rt: HostRuntime) {
    const TEST: &[u8] = b"ZCZC EA01\nTEST\nNNNN";
    static CASES: [(&[u8], Channel, &[u8]); 7] = [
        (
            TEST,
            Channel::Zero,
            b"[EA01 2025-01-01 00:40:00 full 0/5]\nTEST\n\n",
        ),
        (
            TEST,
            Channel::One,
            b"[EA01/1 2025-01-01 00:40:00 full 0/5]\nTEST\n\n",
        ),
        (
            TEST,
            Channel::Two,
            b"[EA01/2 2025-01-01 00:40:00 full 0/5]\nTEST\n\n",
        ),
        (
            b"ZCZC EB02NNNN",
            Channel::Zero,
            b"[EB02 2025-01-01 00:40:00 full 0/0]\n\n",
        ),
        (
            b"ZCZC EA01\nTEST\n***",
            Channel::Zero,
            b"[EA01 2025-01-01 00:40:00 cut 3/8]\nTEST\n***\n\n",
        ),
        (
            b"ZCZC XZ99\n\nNNNN",
            Channel::Zero,
            b"[XZ99 2025-01-01 00:40:00 full 0/1]\n\n\n",
        ),
        (
            b"ZCZC EA01\n*ZCZC ",
            Channel::Zero,
            b"[EA01 2025-01-01 00:40:00 cut 1/1]\n*\n\n",
        ),
    ];
    for &(text, channel, entry) in &CASES {
        let bytes = printed(rt.alloc(), text, channel).expect(&rt, "no entry");
        expect_text(&rt, shown(text), &bytes, entry);
    }
}

#[test]
fn an_entry_of_4100_characters(rt: HostRuntime) {
    let mut text = [b'A'; 4_110];
    text[..10].copy_from_slice(b"ZCZC EA01\n");
    let entry = Entry::new(first_copy(&text).expect(&rt, "no copy"), FIRST);
    let mut writer = Counting::new(Vec::new(rt.alloc()));
    entry_text(&entry, &mut writer).expect(&rt, "writing");
    let bytes = writer.into_inner();
    let rest = bytes.strip_prefix(b"[EA01 2025-01-01 00:40:00 long 0/4100]\n");
    let letters = rest.and_then(|rest| rest.strip_suffix(b"\n\n"));
    assert_eq!(rt; letters, Some([b'A'; 4_100].as_slice()));
}
