//! Runs worked examples: says of each case in some files that it holds, or what differs.
#![tactic(auto)]

mod answers;
mod cases;
mod find;

use crate::cases::differences;
use anyhow::{Context, Result, ensure};
use just_examples_format::cases::name_of;
use std::{env, fs};

// The cases of a file, and how much stands before the first: nothing, or a comment.
fn cases_of(text: &str) -> (&str, usize) {
    match text.strip_prefix("=== ") {
        Some(cases) => (cases, 0),
        None => (text, 1),
    }
}

// Runs the cases of a file, and answers how many of them differ.
fn run_file(rt: &HostRuntime, path: &str) -> Result<usize> {
    let alloc = rt.alloc();
    let text = fs::read_to_string(rt, path).context(format_args!("reading {path}"))?;
    let mut differing = 0usize;
    let (cases, comments) = cases_of(text.as_str());
    for case in cases.split("\n=== ").skip(comments) {
        let name = name_of(case);
        let found = differences(alloc, case)?;
        if found.is_empty() {
            println!(rt; "{name} holds")?;
        } else {
            print!(rt; "{name} differs\n{found}")?;
            differing = differing.saturating_add(1);
        }
    }
    Ok(differing)
}

fn main(rt: HostRuntime) -> Result<()> {
    let mut differing = 0usize;
    for path in env::args(&rt)?.skip(1) {
        differing = differing.saturating_add(run_file(&rt, path.as_str())?);
    }
    ensure!(differing == 0, "{differing} cases differ");
    Ok(())
}
