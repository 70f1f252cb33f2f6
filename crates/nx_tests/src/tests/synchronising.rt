//! Cases and worked examples, and each law called once.

mod cases;
mod cases_heard;
mod examples;
mod laws;
