//! Positions, each sent in two words: the elements of an emission, and what is taken of them.

mod aligned;
mod diversity;
mod elements;
