//! Elements into a receiver, and entries out of it.

ghost use Rattle.std.specs.Prelude.{◌≡◌, ◌==◌, ◌++◌, List, map, IfOk, OnOk};
ghost use Rattle.nx_copies.specs.Events.{Event, Start, elements};
ghost use Rattle.nx_receiver.specs.Receiver.{Stands};
ghost use Rattle.nx_copies.specs.copies.FoundCopies.{TaggedCopy};

use nx_fec::{Counting, WriteFault};
use nx_memory::Recall;
use nx_receiver::{Receiver, entry_text};
use std::alloc::{AllocError, Global};
use std::io::Write;

/// The elements that these digits name, true for B: of `1` it is B, of any other byte Y.
pub fn elements_of(alloc: Global, digits: &[u8]) -> Result<Vec<bool>, AllocError>
    ensures { IfOk result (λ bits. bits.items ≡ map (λ digit. digit == 49) digits.now) }
{
    digits.iter().map(|digit| *digit == b'1').collect(alloc)
}

/// Has a receiver hear elements, all of them, and writes the entry of each copy that is printed as
/// soon as its last element was heard.
pub fn hear<M: Recall, W: Write>(
    receiver: &mut Receiver<M>,
    bits: &[bool],
    log: &mut Counting<W>,
) -> Result<(), WriteFault>
    requires { log.old.failures ≡ 0 }
    ensures heard { (start : Start) (history : List Event) (told : List TaggedCopy)
        → Stands M.content start receiver.old history told → OnOk result
        ((more : List TaggedCopy) × Stands M.content start receiver.new
        (history ++ elements bits.now) (told ++ more)) }
    ensures unfailed { OnOk result (log.new.failures ≡ 0) }
{
    let mut at = 0;
    while at < bits.len() {
        let (count, entry) = receiver.feed(&bits[at..]);
        at += count;
        if let Some(entry) = entry {
            entry_text(&entry, log)?;
        }
    }
    Ok(())
}
