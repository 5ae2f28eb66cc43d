//! Runs the recipes of a bundle of files, and prints which ones began.
#![tactic(auto)]

mod command;
#[cfg(test)]
mod tests;

use command::{Exit, fail, program};
use just_bench::ProgramError;
use std::alloc::AllocError;
use std::env;
use std::env::Args;
use std::io::{BufReader, BufWriter, Error, ErrorKind};
use std::process::ExitCode;

// Runs the program on the words after its name, or on none.
fn run_words(rt: &HostRuntime, words: Option<&[&str]>) -> Exit {
    let alloc = rt.alloc();
    let mut errors = rt.stderr();
    let Ok(mut input) = BufReader::new(alloc, rt.stdin()) else {
        return fail(alloc, &mut errors, ProgramError::Memory);
    };
    let Ok(mut output) = BufWriter::new(alloc, rt.stdout()) else {
        return fail(alloc, &mut errors, ProgramError::Memory);
    };
    program(alloc, words, &mut input, &mut output, &mut errors)
}

// Runs the program on these words.
fn run_texts(rt: &HostRuntime, texts: &[String]) -> Exit {
    let mut words = Vec::new(rt.alloc());
    for text in texts {
        if words.push(text.as_str()).is_err() {
            return fail(rt.alloc(), &mut rt.stderr(), ProgramError::Memory);
        }
    }
    run_words(rt, Some(words.as_slice()))
}

// Runs the program on the process's arguments, the first of which is its name.
fn run_arguments(rt: &HostRuntime, arguments: Args) -> Exit {
    let texts: Result<Vec<String>, AllocError> = arguments.skip(1).collect(rt.alloc());
    match texts {
        Ok(texts) => run_texts(rt, texts.as_slice()),
        Err(_) => fail(rt.alloc(), &mut rt.stderr(), ProgramError::Memory),
    }
}

// Whether an error is want of memory.
fn is_memory(error: &Error) -> bool {
    error.kind() == ErrorKind::OutOfMemory
}

// Runs the program on the process's arguments, or on none where one of them is not UTF-8.
fn run(rt: &HostRuntime) -> Exit {
    match env::args(rt) {
        Ok(arguments) => run_arguments(rt, arguments),
        Err(error) => {
            if is_memory(&error) {
                fail(rt.alloc(), &mut rt.stderr(), ProgramError::Memory)
            } else {
                run_words(rt, None)
            }
        }
    }
}

fn main(rt: HostRuntime) -> ExitCode {
    ExitCode::from(run(&rt).status)
}
