//! The program: its words, the files that they name, and standard output.
#![tactic(auto)]

use ax_app::serve;
use ax_io::{HostFiles, HostSink};
use std::process::ExitCode;
use std::{env, io};

/// The status where a word is no UTF-8; nothing is written then.
const NO_TEXT: u8 = 70;

/// The status where the words cannot be had for want of memory.
const NO_MEMORY: u8 = 71;

fn main(rt: HostRuntime) -> ExitCode {
    let words = match env::args(&rt) {
        Ok(words) => words,
        Err(e) if e.kind() == io::ErrorKind::InvalidData => return ExitCode::from(NO_TEXT),
        Err(_) => return ExitCode::from(NO_MEMORY),
    };
    let Ok(words) = words.skip(1).collect::<Vec<String>>(rt.alloc()) else {
        return ExitCode::from(NO_MEMORY);
    };
    let mut files = HostFiles::new(rt.alloc(), &rt);
    let mut sink = HostSink::new(io::writer(&rt));
    ExitCode::from(serve(rt.alloc(), words.as_slice(), &mut files, &mut sink).code())
}
