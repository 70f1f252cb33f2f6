//! The line that `slots` writes.

ghost use Rattle.std.specs.Prelude.{◌≡◌, ◌≤◌, IfOk};
ghost use Rattle.nx_program.specs.Program.{IsSlotLine, ShowsSlot, WritesText};
ghost use Rattle.nx_envelope.specs.Moment.{last_moment};

use crate::fault::CallFault;
use nx_envelope::{Letter, civil};
use nx_fec::{Counting, RunFault, write_out};
use nx_station::next_slot;
use std::alloc::{AllocError, Global};
use std::io::Write;

/// The line of a slot: the moment at which it begins, and its civil time.
fn slot_line(alloc: Global, slot: u64) -> Result<Vec<u8>, AllocError>
    requires { slot ≤ last_moment }
    ensures { IfOk result (λ line. IsSlotLine slot line.items) }
{
    let begins = slot.to_string(alloc)?;
    let time = civil(slot).unwrap();
    let mut line = Vec::new(alloc);
    line.extend_from_slice(begins.as_bytes())?;
    line.push(b' ')?;
    line.extend_from_slice(&time)?;
    line.push(b'\n')?;
    Ok(line)
}

/// Writes the line of a slot.
fn print_line<W: Write>(alloc: Global, writer: &mut Counting<W>, slot: u64) -> Result<(), RunFault>
    requires writer { writer.old.failures ≡ 0 }
    requires slot { slot ≤ last_moment }
    ensures { WritesText (IsSlotLine slot) W.contents writer.old writer.new result }
{
    let line = slot_line(alloc, slot)?;
    write_out(writer, &line)?;
    Ok(())
}

/// Writes the line of the station's next slot, the first that doesn't begin before the moment.
pub fn print_slot<W: Write>(
    alloc: Global,
    writer: &mut Counting<W>,
    station: Letter,
    moment: u64,
) -> Result<(), CallFault>
    requires { writer.old.failures ≡ 0 }
    ensures { ShowsSlot station.byte moment W.contents writer.old writer.new result }
{
    match next_slot(station, moment) {
        Some(slot) => Ok(print_line(alloc, writer, slot)?),
        None => Err(CallFault::NoSlot),
    }
}
