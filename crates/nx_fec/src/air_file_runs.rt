//! Whole runs: from what is read to what is written.
ghost use Rattle.std.specs.Prelude.{◌≡◌, length, map, IfOk};
ghost use Rattle.nx_fec.specs.emissions.Emission.{framed_positions, sent_position};
ghost use Rattle.nx_fec.specs.declared.emissions.positions.Position.TheVariants.{Traffic};
ghost use Rattle.nx_fec.specs.Runs.{Decodes, Encodes, Shows};
ghost use Rattle.nx_fec.specs.Transfers.{devices};

use crate::air_files::reading::{read_bits, read_whole};
use crate::devices::counting::Counting;
use crate::devices::writing::write_out;
use crate::emissions::aligned::decode_aligned;
use crate::emissions::emission_lines::write_emission;
use crate::emissions::positions::Position;
use crate::fault::RunFault;
use crate::texts::word_lines::word_lines;
use nx_code::{Comb, ELEMENTS, Shift, spell};
use std::alloc::{AllocError, Global};
use std::io::{Read, Write};

/// Reads an air file to its end, decodes its elements as words from slot 0 on, and writes their
/// text. Answers how many bytes the text has.
///
/// The faults of `read_bits` come first; then `Ragged`, where the elements are no whole words; then
/// `Write`. Nothing is written before all else succeeded. Memory may run out at any growth.
pub fn decode_run<R: Read, W: Write>(
    alloc: Global,
    reader: &mut Counting<R>,
    writer: &mut Counting<W>,
) -> Result<u64, RunFault>
    requires reader { reader.old.failures ≡ 0 }
    requires writer { writer.old.failures ≡ 0 }

    ensures { Decodes
        (devices R.remaining W.contents reader.old reader.new writer.old writer.new) result }
{
    let bits = read_bits(alloc, reader)?;
    let text = decode_aligned(alloc, &bits)?;
    write_out(writer, &text)?;
    Ok(text.len() as u64)
}

/// Reads a text whole, and writes it as an air file: the text spelled from letters, with four
/// positions of phasing before it and three of the end after it. Answers how many positions were
/// written.
///
/// `Read` and `FileTooLong` come first, then `NoSuchCharacter`, then `Write`. Nothing is written
/// before all else succeeded. Memory may run out at any growth.
pub fn encode_run<R: Read, W: Write>(
    alloc: Global,
    reader: &mut Counting<R>,
    writer: &mut Counting<W>,
) -> Result<u64, RunFault>
    requires reader { reader.old.failures ≡ 0 }
    requires writer { writer.old.failures ≡ 0 }

    ensures { Encodes
        (devices R.remaining W.contents reader.old reader.new writer.old writer.new) result }
{
    let text = read_whole(alloc, reader)?;
    let combs = spell(alloc, &text, Shift::Letters)?;
    let positions = framed_positions(alloc, &combs)?;
    write_emission(writer, &positions)?;
    Ok(positions.len() as u64)
}

/// Reads an air file to its end, and writes a line for each word of its elements, from slot 0 on. A
/// line has the slot, its role `DX` or `RX`, the number of the word in two digits of base 16, and
/// the letter or the name of its signal. Where the word has the wrong weight, `wrong` stands in
/// place of the letter or the name. Answers how many words there are.
///
/// The faults of `read_bits` come first; then `Ragged`, where the elements are no whole words; then
/// `Write`. Nothing is written before all else succeeded. Memory may run out at any growth.
pub fn show_run<R: Read, W: Write>(
    alloc: Global,
    reader: &mut Counting<R>,
    writer: &mut Counting<W>,
) -> Result<u64, RunFault>
    requires reader { reader.old.failures ≡ 0 }
    requires writer { writer.old.failures ≡ 0 }

    ensures { Shows
        (devices R.remaining W.contents reader.old reader.new writer.old writer.new) result }
{
    let bits = read_bits(alloc, reader)?;
    let lines = word_lines(alloc, &bits)?;
    write_out(writer, &lines)?;
    Ok((bits.len() / ELEMENTS) as u64)
}

/// The positions by which combinations are sent alone.
fn framed_positions(alloc: Global, combs: &[Comb]) -> Result<Vec<Position>, AllocError>
    ensures { IfOk result (λ positions.
        map sent_position positions.items
        ≡ framed_positions (map (λ comb. comb.number) combs.now)) }
{
    let mut positions = Vec::with_capacity(alloc, 4 + combs.len() + 3)?;
    positions.resize(4 + combs.len(), Position::Phasing)?;
    send_combs(combs, &mut positions[4..]);
    positions.extend_from_slice(&[Position::End; 3])?;
    Ok(positions)
}

/// Makes these positions those that send the combinations, one each.
fn send_combs(combs: &[Comb], positions: &mut [Position])
    requires { length positions.old ≡ length combs.now }
    ensures { positions.new ≡ map (λ comb. Traffic comb) combs.now }
{
    for place in 0..combs.len() {
        positions[place] = Position::Traffic(combs[place]);
    }
}
