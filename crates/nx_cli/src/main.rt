//! The program `navtex`: a NAVTEX broadcast station and receiver on standard input and output.
#![tactic(auto)]

#[cfg(test)]
mod tests;

use nx_disk::LeftBefore;
use nx_fec::Counting;
use nx_program::{SystemFiles, answer};
use std::process::ExitCode;
use std::{env, io};

/// The arguments of the process, of which the first is the program's name.
fn arguments_of(rt: &HostRuntime) -> io::Result<Vec<String>> {
    Ok(env::args(rt)?.collect(rt.alloc())?)
}

fn main(rt: HostRuntime) -> ExitCode {
    let ended = answer(
        rt.alloc(),
        arguments_of(&rt),
        Counting::new(rt.stdin()),
        &mut Counting::new(rt.stdout()),
        &mut Counting::new(rt.stderr()),
        SystemFiles::new(rt.alloc(), &rt, LeftBefore::any()),
    );
    ExitCode::from(ended.status)
}
