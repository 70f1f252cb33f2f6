//! Channels by their numbers.

use nx_fec::Channel;

#[test]
fn channels_by_number(rt: HostRuntime) {
    assert_eq!(rt; Channel::new(0), Some(Channel::Zero));
    assert_eq!(rt; Channel::new(1), Some(Channel::One));
    assert_eq!(rt; Channel::new(2), Some(Channel::Two));
    assert!(rt; Channel::new(3).is_none());
    assert_eq!(rt; Channel::Two.number(), 2);
    assert_eq!(rt; Channel::of(None), Channel::Zero);
    assert_eq!(rt; Channel::of(Some(Channel::Two)), Channel::Two);
}
