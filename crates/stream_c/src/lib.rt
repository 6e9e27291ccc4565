// The body of the program `ledger` for C (include/ledger.h): the export calls the library's function of its name. Handles take no bytes, so C passes nothing.
#![tactic(auto)]

use feed::Streams;
use std::io::{Stderr, Stdin, Stdout};

// The program with buffers of its own, for C, whose `main` can give a status.
#[unsafe(no_mangle)]
pub extern "C" fn ledger_stream(input: Stdin, output: Stdout, error: Stderr) -> bool {
    stream::ledger_stream(Streams {
        input,
        output,
        error,
    })
}
