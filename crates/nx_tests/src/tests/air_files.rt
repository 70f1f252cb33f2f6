//! Positions and air files: what is paired, written, scanned and run over.

mod air_file_runs;
mod channels;
mod devices;
mod emissions;
mod faults;
mod laws;
mod lines;
mod packing;
mod scanning;
mod table;
