//! Lines of an air file.

use super::super::shown;
use arrayvec::ArrayVec;
use nx_fec::{AirLine, Channel, air_line};

/// Lines that name their channel, and lines that name none.
#[test]
fn commands(rt: HostRuntime) {
    let cases: [(&[u8], Option<AirLine>); 10] = [
        (b"T 12345678901", Some(AirLine::Moment(12_345_678_901))),
        (b"RS E", Some(AirLine::RefuseStation(Channel::Zero, b'E'))),
        (b"RS0 E", Some(AirLine::RefuseStation(Channel::Zero, b'E'))),
        (b"AS1 E", Some(AirLine::AcceptStation(Channel::One, b'E'))),
        (b"RJ2 L", Some(AirLine::RefuseSubject(Channel::Two, b'L'))),
        (b"AJ Z", Some(AirLine::AcceptSubject(Channel::Zero, b'Z'))),
        (b"AJ3 Z", None),
        (b"RS1E", None),
        (b"RS 1 E", None),
        (b"T1 5", None),
    ];
    for (line, said) in cases {
        assert_eq!(rt; air_line(line), said, "{}", shown(line));
    }
}

/// The elements 011 on a channel.
fn three_elements(channel: Channel) -> Option<AirLine> {
    let mut bits = ArrayVec::new();
    bits.try_extend_from_slice(&[false, true, true]).unwrap();
    Some(AirLine::Bits(channel, bits))
}

/// Elements of channels, and lines of no channel.
#[test]
fn elements(rt: HostRuntime) {
    assert_eq!(rt; air_line(b"B 011"), three_elements(Channel::Zero));
    assert_eq!(rt; air_line(b"B0 011"), three_elements(Channel::Zero));
    assert_eq!(rt; air_line(b"B2 011"), three_elements(Channel::Two));
    for line in [b"B3 1", b"B1  ", b"B012", b"B 1 "] {
        assert!(rt; air_line(line).is_none(), "{}", shown(line));
    }
}

/// A line of elements has 512, or 511 where it names its channel.
#[test]
fn longest_lines(rt: HostRuntime) {
    let mut line = [b'0'; 515];
    line[..2].copy_from_slice(b"B ");
    assert!(rt; air_line(&line[..514]).is_some());
    assert!(rt; air_line(&line).is_none());
    line[..3].copy_from_slice(b"B1 ");
    assert!(rt; air_line(&line[..514]).is_some());
    assert!(rt; air_line(&line).is_none());
}
