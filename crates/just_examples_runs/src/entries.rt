//! The lines that tell what a host was asked.
use just_data::{Sequence, Text};
use just_examples_format::lists::{add_group, before};
use just_paths::Modulepath;
use just_run_layers::{
    CommandCall, Entry, EnvironmentChange, Executor, Groups, ScriptCall, ShellCall,
};
use std::alloc::AllocError;

fn add_groups(text: &mut String, groups: &Groups) -> Result<(), AllocError> {
    for group in groups.as_slice() {
        add_group(text, group.as_slice())?;
    }
    Ok(())
}

/// Adds the line of the recipes that began.
pub fn add_executed(text: &mut String, entries: &[Entry]) -> Result<(), AllocError> {
    text.push_str("executed")?;
    let mut begun: usize = 0;
    for entry in entries {
        if let Entry::Begin { path, groups } = entry {
            text.push_str(before(begun))?;
            write!(text, "{path}")?;
            add_groups(text, groups)?;
            begun = begun.saturating_add(1);
        }
    }
    text.push_str(if begun == 0 { " nothing\n" } else { "\n" })
}

// Adds parts, with a blank before each.
fn add_parts(text: &mut String, parts: &[Text]) -> Result<(), AllocError> {
    for part in parts {
        write!(text, " {part}")?;
    }
    Ok(())
}

// Adds the folder that a program runs in, where it is changed.
fn add_folder(text: &mut String, folder: &Option<Text>) -> Result<(), AllocError> {
    match folder {
        Some(folder) => write!(text, " | in {folder}"),
        None => Ok(()),
    }
}

// Adds what is changed in an environment.
fn add_changes(text: &mut String, changes: &[EnvironmentChange]) -> Result<(), AllocError> {
    if !changes.is_empty() {
        text.push_str(" | with")?;
    }
    for change in changes {
        match &change.value {
            Some(value) => write!(text, " {}={value}", change.name)?,
            None => write!(text, " -{}", change.name)?,
        }
    }
    Ok(())
}

// Adds what a shell is handed: the shell, the command, and what there is beside it.
fn add_shell(text: &mut String, call: &ShellCall) -> Result<(), AllocError> {
    write!(text, " {}", call.shell.command)?;
    add_parts(text, call.shell.arguments.as_slice())?;
    write!(text, " | {}", call.command)?;
    add_folder(text, &call.working_directory)?;
    if let Some(positional) = &call.positional {
        write!(text, " | to {}", positional.recipe)?;
        add_parts(text, positional.texts.as_slice())?;
    }
    add_changes(text, call.environment.as_slice())?;
    text.push_str(if call.is_quiet { " | quiet" } else { "" })
}

// Adds what runs a script.
fn add_executor(text: &mut String, executor: &Executor) -> Result<(), AllocError> {
    match executor {
        Executor::Command {
            interpreter,
            arguments,
        } => {
            write!(text, " {interpreter}")?;
            add_parts(text, arguments.as_slice())
        }
        Executor::Shebang {
            interpreter,
            argument,
        } => {
            write!(text, " #!{interpreter}")?;
            match argument {
                Some(argument) => write!(text, " {argument}"),
                None => Ok(()),
            }
        }
    }
}

// Adds the lines of a script, with ` / ` between them.
fn add_lines(text: &mut String, lines: &Sequence<Text>) -> Result<(), AllocError> {
    text.push_str(" | ")?;
    for (place, line) in lines.as_slice().iter().enumerate() {
        write!(text, "{}{line}", if place == 0 { "" } else { " / " })?;
    }
    Ok(())
}

// Adds what a host is handed for a script: what runs it, its lines, and what there is beside them.
fn add_script(text: &mut String, call: &ScriptCall) -> Result<(), AllocError> {
    add_executor(text, &call.executor)?;
    add_lines(text, &call.lines)?;
    add_folder(text, &call.working_directory)?;
    if let Some(texts) = &call.positional {
        text.push_str(" | to")?;
        add_parts(text, texts.as_slice())?;
    }
    if let Some(extension) = &call.extension {
        write!(text, " | as {extension}")?;
    }
    add_changes(text, call.environment.as_slice())
}

// Adds what a host is handed for a program: the shell that runs it, if one does, the program, and what there is beside it.
fn add_command(text: &mut String, call: &CommandCall) -> Result<(), AllocError> {
    if let Some(shell) = &call.shell {
        write!(text, " {}", shell.command)?;
        add_parts(text, shell.arguments.as_slice())?;
        text.push_str(" |")?;
    }
    write!(text, " {}", call.binary)?;
    add_parts(text, call.arguments.as_slice())?;
    add_folder(text, &call.working_directory)?;
    add_changes(text, call.environment.as_slice())
}

// Adds the module whose pairs are asked for: its path, which the root has none of, and its folder.
fn add_dotenv(text: &mut String, path: &Modulepath, folder: &Text) -> Result<(), AllocError> {
    text.push_str(" dotenv")?;
    if !path.components.is_empty() {
        write!(text, " {path}")?;
    }
    write!(text, " | in {folder}")
}

// Adds a call: its kind, and what it was handed.
fn add_entry(text: &mut String, entry: &Entry) -> Result<(), AllocError> {
    match entry {
        Entry::Begin { path, groups } => {
            write!(text, " begin {path}")?;
            add_groups(text, groups)
        }
        Entry::Shell(call) => {
            text.push_str(" shell")?;
            add_shell(text, call)
        }
        Entry::Script(call) => {
            write!(text, " script {} |", call.recipe)?;
            add_script(text, call)
        }
        Entry::Command(call) => {
            text.push_str(" command")?;
            add_command(text, call)
        }
        Entry::Confirm { prompt } => write!(text, " confirm {prompt}"),
        Entry::Show { line } => write!(text, " show {line}"),
        Entry::Dotenv {
            module_path,
            working_directory,
        } => add_dotenv(text, module_path, working_directory),
        Entry::Timestamp { format } => write!(text, " timestamp {format}"),
    }
}

/// Adds a line for each call of the host, by its place from 1.
pub fn add_entries(text: &mut String, entries: &[Entry]) -> Result<(), AllocError> {
    for (place, entry) in entries.iter().enumerate() {
        write!(text, "{}", place.saturating_add(1))?;
        add_entry(text, entry)?;
        text.push('\n')?;
    }
    Ok(())
}
