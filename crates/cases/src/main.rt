//! Cases as data: each case file has lines of given words and of the words that are wanted, which the
//! public calls of the crates must answer. The program is given the names of case files, prints how
//! many cases each has and a line for each case that differs, and fails where one does. How a line is
//! written is told by `case_text`.
#![tactic(auto)]

mod commands;
mod connections;
mod files;
mod kind;
mod memory;
mod run;
mod scripts;
mod shown;

use crate::run::run;
use std::env;
use std::process::ExitCode;
use waf_io::{RealFiles, WriteSink};
use waf_plain::{Bytes, NoMemory, Seq};

fn main(rt: HostRuntime) -> ExitCode {
    let Ok(names) = file_names(&rt) else {
        return ExitCode::from(1);
    };
    let mut files = RealFiles::new(&rt);
    let mut output = WriteSink::new(std::io::writer(&rt));
    ExitCode::from(run(rt.alloc(), &names, &mut files, &mut output))
}

// The words after the program's name.
fn file_names(rt: &HostRuntime) -> Result<Seq<Bytes>, NoMemory> {
    let Ok(args) = env::args(rt) else {
        return Err(NoMemory);
    };
    let mut names = Seq::new(rt.alloc());
    for word in args.skip(1) {
        names.push(Bytes::copy(rt.alloc(), word.as_bytes())?)?;
    }
    Ok(names)
}
