//! Going on from a state that is read before the air file.

ghost use Rattle.std.specs.Prelude.{◌≡◌, Err};
ghost use Rattle.nx_fec.specs.Transfers.{devices};
ghost use Rattle.nx_memory.specs.Saved.{SavedStates};
ghost use Rattle.nx_receiver.specs.air_file_runs.Resume.{AnswersAir, ReadStateAlone, Resumes, ResumesBy};
ghost use Rattle.nx_receiver.specs.declared.air_file_runs.listen_fault.ListenFault.TheVariants.{Memory};
ghost use Rattle.nx_receiver.specs.declared.air_file_runs.resume_fault.ResumeFault.TheVariants.{Listen};
ghost use Rattle.nx_receiver.specs.declared.air_file_runs.resume_fault.Want.TheVariants as wants;

use crate::air_file_runs::listening::{Report, listen_from, listen_unlogged};
use crate::air_file_runs::resume_fault::{ResumeFault, Want};
use crate::air_file_runs::state::{read_state, write_state};
use nx_fec::Counting;
use nx_memory::SavedSet;
use std::alloc::{AllocError, Global};
use std::io::{Read, Write};

/// Reads the text of a state, as `read_state` does, and listens to the air file behind it, as
/// `listen_from` does. With `Want::Log` the log is written, as `listen_from` writes it. With
/// `Want::State` no log is written, and the text of what the run leaves is, and nothing before all
/// else succeeded. Lines and bytes of the air file are counted from its start. All memory is taken
/// before the first read of the air file. No call on reader or writer has failed before.
///
/// Where it answers Ok to `Want::Log`, each message that is heard in time in the air file has
/// exactly one entry in the log, as with `listen_from`.
pub fn resume<R: Read, W: Write>(
    alloc: Global,
    reader: &mut Counting<R>,
    writer: &mut Counting<W>,
    want: Want,
) -> Result<Report, ResumeFault>
    requires reader { reader.old.failures ≡ 0 }
    requires writer { writer.old.failures ≡ 0 }
    ensures resumes { Resumes want
        (devices R.remaining W.contents reader.old reader.new writer.old writer.new) result }
    ensures memory { (error : AllocError) → result ≡ Err (Listen (Memory error))
        → (states : SavedStates) × ReadStateAlone R.remaining reader.old reader.new states
        × (writer.new ≡ writer.old) }
{
    let states = read_state(reader)?;
    match want {
        Want::Log => log_from(alloc, &states, reader, writer),
        Want::State => save_from(alloc, &states, reader, writer),
    }
}

/// Listens to an air file, going on from what is saved, and writes its log. No call on reader or
/// writer has failed before.
fn log_from<R: Read, W: Write>(
    alloc: Global,
    saved: &SavedSet,
    reader: &mut Counting<R>,
    writer: &mut Counting<W>,
) -> Result<Report, ResumeFault>
    requires reader { reader.old.failures ≡ 0 }
    requires writer { writer.old.failures ≡ 0 }
    ensures resumes { ResumesBy (AnswersAir wants.Log saved.now) wants.Log
        (devices R.remaining W.contents reader.old reader.new writer.old writer.new) result }
    ensures memory { (error : AllocError) → result ≡ Err (Listen (Memory error))
        → (reader.new ≡ reader.old) × (writer.new ≡ writer.old) }
{
    match listen_from(alloc, saved, reader, writer) {
        Ok((report, _)) => Ok(report),
        Err(why) => Err(ResumeFault::Listen(why)),
    }
}

/// Listens to an air file, going on from what is saved, and writes the text of what it leaves. No
/// call on reader or writer has failed before.
fn save_from<R: Read, W: Write>(
    alloc: Global,
    saved: &SavedSet,
    reader: &mut Counting<R>,
    writer: &mut Counting<W>,
) -> Result<Report, ResumeFault>
    requires reader { reader.old.failures ≡ 0 }
    requires writer { writer.old.failures ≡ 0 }
    ensures resumes { ResumesBy (AnswersAir wants.State saved.now) wants.State
        (devices R.remaining W.contents reader.old reader.new writer.old writer.new) result }
    ensures memory { (error : AllocError) → result ≡ Err (Listen (Memory error))
        → (reader.new ≡ reader.old) × (writer.new ≡ writer.old) }
{
    match listen_unlogged(alloc, saved, reader) {
        Ok((report, left)) => match write_state(&left, writer) {
            Ok(()) => Ok(report),
            Err(fault) => Err(ResumeFault::Write {
                written: fault.written,
            }),
        },
        Err(fault) => Err(ResumeFault::Listen(fault)),
    }
}
