//! A receiver in a program of one's own: elements come as lines of ones and zeros, of a demodulator
//! or a file, and each message is written as soon as its last element was heard.
#![tactic(auto)]

mod hearing;

use hearing::{elements_of, hear};
use nx_fec::Counting;
use nx_memory::RingRecall;
use nx_receiver::{Receiver, entry_text};

/// The moment of the first element, 2025-01-01 00:40:00 UTC; a receiver on watch calls
/// `Receiver::set_moment` by its clock, once a second.
const MOMENT: u64 = 1_735_692_000;

fn main(rt: HostRuntime) -> anyhow::Result<()> {
    let alloc = rt.alloc();
    let mut receiver = Receiver::new(alloc, RingRecall::new(alloc)?, MOMENT)?;
    let mut log = Counting::new(rt.stdout());
    for line in rt.lines(alloc) {
        hear(
            &mut receiver,
            &elements_of(alloc, line?.as_bytes())?,
            &mut log,
        )?;
    }
    if let Some(entry) = receiver.close() {
        entry_text(&entry, &mut log)?;
    }
    Ok(())
}
