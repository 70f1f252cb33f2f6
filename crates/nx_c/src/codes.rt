//! Words and text: decoding and encoding.

ghost use Rattle.nx_c.specs.Calls.{DecodesTo, EncodesTo};
ghost use Rattle.nx_c.specs.Faults.{run_told};
ghost use Rattle.nx_c.specs.Told.{Tells, answer, ended_told};
ghost use Rattle.nx_handle.specs.CallerRoom.{room};
ghost use Rattle.nx_code.specs.Signal.{number_of_signal, place};
ghost use Rattle.nx_code.specs.declared.signals.Signal.{Signal};
ghost use Rattle.std.specs.Prelude.{◌≡◌, ◌≢◌, ◌+◌};

use crate::faults::{run_told, told};
use crate::told::{Place, Told, tell};
use nx_code::{Signal, Word, signal_of};
use nx_fec::{Counting, RunFault, decode_run, encode_run};
use nx_handle::Status;
use std::alloc::Global;

/// Decodes an air file, as `nx_fec::decode_run` does, and puts its text into the caller's room.
#[unsafe(no_mangle)]
pub extern "C" fn nx_decode(
    alloc: Global,
    air: &[u8],
    text: &mut [u8],
    written: &mut usize,
    place: &mut Place,
) -> u32
    ensures { Tells (DecodesTo air.now) run_told
        (room text.old text.new written.new) (answer result place.new) }
{
    let mut writer = Counting::new(Vec::new(alloc));
    let outcome = decode_run(alloc, &mut Counting::new(air), &mut writer);
    tell(ended(outcome), &writer.into_inner(), text, written, place)
}

/// Encodes a text, as `nx_fec::encode_run` does, and puts its air file into the caller's room.
#[unsafe(no_mangle)]
pub extern "C" fn nx_encode(
    alloc: Global,
    text: &[u8],
    air: &mut [u8],
    written: &mut usize,
    place: &mut Place,
) -> u32
    ensures { Tells (EncodesTo text.now) run_told
        (room air.old air.new written.new) (answer result place.new) }
{
    let mut writer = Counting::new(Vec::new(alloc));
    let outcome = encode_run(alloc, &mut Counting::new(text), &mut writer);
    tell(ended(outcome), &writer.into_inner(), air, written, place)
}

/// What a run over an air file or a text tells.
fn ended(outcome: Result<u64, RunFault>) -> Told
    ensures { result ≡ ended_told run_told outcome }
{
    match outcome {
        Ok(_) => told(Status::Done),
        Err(fault) => run_told(fault),
    }
}

/// The number of the signal that a word stands for. It is 1 to 32 for the combinations, 33 for idle
/// signal alpha, 34 for idle signal beta and 35 for signal repetition (M.476, M.625). It is 0 where
/// the word has the wrong weight, or the byte is the number of no word.
#[unsafe(no_mangle)]
pub extern "C" fn nx_signal_of(word: u8) -> u8
    ensures signal { (signal : Signal) → number_of_signal signal ≡ word
        → result ≡ place signal + 1 }
    ensures none { ((signal : Signal) → number_of_signal signal ≢ word) → result ≡ 0 }
{
    let Some(word) = Word::new(word) else {
        return 0;
    };
    match signal_of(word) {
        Some(Signal::Traffic(comb)) => comb.number(),
        Some(Signal::Alpha) => 33,
        Some(Signal::Beta) => 34,
        Some(Signal::Repeat) => 35,
        None => 0,
    }
}
