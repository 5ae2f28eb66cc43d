//! What is written of a run.
ghost use Rattle.std.specs.Prelude.{◌≡◌, ◌++◌, string_bytes, IfOk, OnOk};
ghost use Rattle.std.specs.Io.KnownBytes.{Appends};
ghost use Rattle.just_bench.specs.Entries.{entry_line, entry_lines, further, group_text, groups_text, script_line, script_lines};
ghost use Rattle.just_bench.specs.Writing.{GetsBeginning};

use crate::texts::write_text;
use just_data::{Sequence, Text};
use just_run_layers::Entry;
use std::alloc::{AllocError, Global};
use std::io;
use std::io::Write;

// Adds texts, each after a comma.
fn add_further(line: &mut String, texts: &[Text]) -> Result<(), AllocError>
    ensures { OnOk result (string_bytes line.new ≡ string_bytes line.old ++ further texts.now) }
{
    for text in texts {
        write!(line, ", {text}")?;
    }
    Ok(())
}

// Adds the texts of a group in brackets.
fn add_group(line: &mut String, texts: &[Text]) -> Result<(), AllocError>
    ensures { OnOk result (string_bytes line.new ≡ string_bytes line.old ++ group_text texts.now) }
{
    let Some((first, rest)) = texts.split_first() else {
        return line.push_str(" []");
    };
    write!(line, " [{first}")?;
    add_further(line, rest)?;
    line.push(']')
}

fn add_groups(line: &mut String, groups: &[Sequence<Text>]) -> Result<(), AllocError>
    ensures { OnOk result (string_bytes line.new ≡ string_bytes line.old ++ groups_text groups.now) }
{
    for group in groups {
        add_group(line, group.as_slice())?;
    }
    Ok(())
}

// Adds a line of a script.
fn add_script_line(lines: &mut String, line: &Text) -> Result<(), AllocError>
    ensures { OnOk result (string_bytes lines.new ≡ string_bytes lines.old ++ script_line line.now) }
{
    writeln!(lines, "    script {line}")
}

fn add_script(lines: &mut String, script: &[Text]) -> Result<(), AllocError>
    ensures { OnOk result (string_bytes lines.new ≡ string_bytes lines.old ++ script_lines script.now) }
{
    for line in script {
        add_script_line(lines, line)?;
    }
    Ok(())
}

// Adds the lines of a call: of a recipe that began, of a prompt, of what is shown and of what runs.
fn add_entry(lines: &mut String, entry: &Entry) -> Result<(), AllocError>
    ensures { OnOk result (string_bytes lines.new ≡ string_bytes lines.old ++ entry_line entry.now) }
{
    match entry {
        Entry::Begin { path, groups } => {
            write!(lines, "{path}")?;
            add_groups(lines, groups.as_slice())?;
            lines.push('\n')
        }
        Entry::Confirm { prompt } => writeln!(lines, "    confirm {prompt}"),
        Entry::Show { line } => writeln!(lines, "    show {line}"),
        Entry::Shell(call) => writeln!(lines, "    shell {}", call.command),
        Entry::Script(call) => add_script(lines, call.lines.as_slice()),
        _ => Ok(()),
    }
}

// The lines of a call.
fn entry_text(alloc: Global, entry: &Entry) -> Result<String, AllocError>
    ensures { IfOk result (λ lines. string_bytes lines ≡ entry_line entry.now) }
{
    let mut lines = String::new(alloc);
    add_entry(&mut lines, entry)?;
    Ok(lines)
}

// Writes the lines of a call.
fn write_entry<W: Write>(alloc: Global, output: &mut W, entry: &Entry) -> io::Result<()>
    ensures whole { OnOk result (Appends (W.contents output.old) (W.contents output.new) (entry_line entry.now)) }
    ensures begun { GetsBeginning (W.contents output.old) (W.contents output.new) (entry_line entry.now) }
{
    let lines = entry_text(alloc, entry)?;
    write_text(output, lines.as_str())
}

/// Writes what a host was asked: a line for each recipe that began, and behind blanks one for each prompt, each line that was
/// shown, each command of a shell and each line of a script. It sees that all is written. After a fault of the output, or
/// want of memory, nothing more is, and what was is a beginning.
pub fn write_entries<W: Write>(alloc: Global, output: &mut W, entries: &[Entry]) -> io::Result<()>
    ensures whole { OnOk result (Appends (W.contents output.old) (W.contents output.new) (entry_lines entries.now)) }
    ensures begun { GetsBeginning (W.contents output.old) (W.contents output.new) (entry_lines entries.now) }
{
    for entry in entries {
        write_entry(alloc, output, entry)?;
    }
    output.flush()
}
