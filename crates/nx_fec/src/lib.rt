//! Forward error correction of collective mode B: each position is sent in two words, and received
//! from both; and the air files that carry an emission.
//!
//! What is kept from call to call has no field but those that contracts see: a model's `inverse`
//! gives each of them back, and the size of the struct is proved where one is made.
#![tactic(auto)]

mod air_file_runs;
mod air_files;
mod devices;
mod emissions;
mod fault;
pub mod laws;
mod texts;

pub use air_file_runs::{decode_run, encode_run, show_run};
pub use air_files::channel::Channel;
pub use air_files::line_reader::{LineReader, NextLine};
pub use air_files::line_runs::LinesRead;
pub use air_files::lines::{AirLine, LineKind, MAX_ELEMENTS, air_line};
pub use air_files::packed_elements::PackedElements;
pub use air_files::reading::{read_bits, read_whole};
pub use air_files::scanner::{AIR_LIMIT, Scanner};
pub use devices::counting::Counting;
pub use devices::pieces::{CHUNK, Piece, PieceBuffer, next_piece};
pub use devices::write_batch::Batch;
pub use devices::writing::{write_bits, write_on, write_out};
pub use emissions::aligned::{AlignedFault, decode_aligned, get_word};
pub use emissions::diversity::{Diversity, Heard, combine};
pub use emissions::emission::to_bits;
pub use emissions::positions::{Position, SPREAD, word_at};
pub use fault::{AirFault, LineFault, ReadFault, RunFault, WriteFault};
pub use texts::appending::append;
pub use texts::table_text::write_table;
