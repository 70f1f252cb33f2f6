//! A receiver: entries as they are printed, a judge's answers, emissions through a receiver and
//! through `listen`, states, and laws.

mod entries;
mod hearing;
mod judging;
mod laws;
mod listening;
mod states;
