//! Worked examples of an air file of several channels: checking and damage look at channel 0 alone.

use super::*;

/// The air file that is sent of EA01 with the one line TEST.
fn air_of_ea01(rt: &impl Abort, alloc: Global) -> Vec<u8> {
    let (_, air) = sent(rt, alloc, FILE, b'E', 1_735_689_600);
    air
}

/// The air file of two channels: the moment of an air file of EA01, and each of its three lines of
/// elements followed by that of another one, on channel 1.
fn on_two_channels(rt: &impl Abort, alloc: Global, zero: &[u8], one: &[u8]) -> Vec<u8> {
    let mut both = Vec::from_slice(alloc, zero.get(..13).expect(rt, "a moment")).expect(
        rt, "memory",
    );
    for (line, text, end) in [(13, 14, 506), (506, 507, 999), (999, 1000, 1443)] {
        both.extend_from_slice(zero.get(line..end).expect(rt, "a line"))
            .expect(rt, "memory");
        both.extend_from_slice(b"B1").expect(rt, "memory");
        both.extend_from_slice(one.get(text..end).expect(rt, "a line"))
            .expect(rt, "memory");
    }
    both
}

#[test]
fn channel_0_alone_is_checked(rt: HostRuntime) {
    let air = air_of_ea01(&rt, rt.alloc());
    let both = on_two_channels(&rt, rt.alloc(), &air, &air);
    assert_eq!(rt; both.len(), 2876);
    let (outcome, written) = checked(rt.alloc(), &both);
    assert_eq!(rt; outcome, Ok(1));
    expect_text(&rt, "channel 0", &written, b"station E\n#A01\nTEST\n;\n");
}

#[test]
fn channel_0_alone_is_damaged(rt: HostRuntime) {
    let air = air_of_ea01(&rt, rt.alloc());
    let (_, other) = damaged(rt.alloc(), &air);
    let both = on_two_channels(&rt, rt.alloc(), &air, &air);
    let (count, written) = damaged(rt.alloc(), &both);
    assert_eq!(rt; count, Ok(30));
    assert_eq!(rt; written, on_two_channels(&rt, rt.alloc(), &other, &air));
}

/// The words 0 to 2 begin at the elements 0, 7 and 14 of channel 0, on whichever lines these stand.
#[test]
fn lines_keep_their_names(rt: HostRuntime) {
    let air = b"B0 000000\nRS1 E\nB1 0\nB 00\nB2 1\nT 5\nB0 0000001\n".as_slice();
    let mut writer = Counting::new(Vec::new(rt.alloc()));
    let count = damage(&mut Counting::new(air), &mut writer, DamageKind::All, 0, 3);
    assert_eq!(rt; count, Ok(3));
    let wanted = b"B0 100000\nRS1 E\nB1 0\nB 01\nB2 1\nT 5\nB0 0000000\n";
    expect_text(&rt, "damaged", &writer.into_inner(), wanted);
}
