//! Calls of a recorder, one after another: what each is answered, and which are kept.
use just_bench::{Recorder, Script};
use just_data::{Sequence, Text};
use just_examples_format::lists::before;
use just_examples_format::marks::unmarked;
use just_parts::layers::{Fault, Interpreter, Refusal, Signal, Status};
use just_paths::Modulepath;
use just_run_layers::{
    CommandCall, Entry, EnvironmentPair, Executor, Host, RunAnswer, ScriptCall, ShellCall,
};
use std::alloc::{AllocError, Global};

fn fault_of(alloc: Global, message: &str) -> Result<Fault, AllocError> {
    let message = Text::from_str(alloc, message)?;
    Ok(Fault { message })
}

// Pairs with commas between them, each of a name and a text with `=` between the two; none where nothing is written.
fn pairs_of(alloc: Global, written: &str) -> Result<Sequence<EnvironmentPair>, AllocError> {
    let mut pairs = Sequence::new(alloc);
    if written.is_empty() {
        return Ok(pairs);
    }
    for pair in written.split(',') {
        let (name, value) = pair.split_once('=').unwrap_or((pair, ""));
        let name = Text::from_str(alloc, name)?;
        let value = Text::from_str(alloc, value)?;
        pairs.push(EnvironmentPair { name, value })?;
    }
    Ok(pairs)
}

// Puts how a program ends.
fn put_run(alloc: Global, script: &mut Script, kind: &str, rest: &str) -> Result<(), AllocError> {
    let status = match kind {
        "code" | "interrupted" => Status::Code(rest.parse::<i32>().unwrap_or(0)),
        "killed" => Status::NoCode(rest.parse::<i32>().ok()),
        _ => Status::NotStarted(Text::from_str(alloc, rest)?),
    };
    let signal = match kind {
        "interrupted" => Some(Signal::Interrupt),
        _ => None,
    };
    script.runs.push(RunAnswer { status, signal })
}

// Puts an answer, or a fault, behind those of its kind: `code=N`, `interrupted=N`, `killed=N`, `missing=TEXT`, `line=TEXT`,
// `pair=NAME=TEXT,NAME=TEXT`, `pair=`, `time=TEXT`, `no-line=TEXT`, `no-pairs=TEXT`, `no-time=TEXT`.
fn put(alloc: Global, script: &mut Script, word: &str) -> Result<(), AllocError> {
    let (kind, rest) = word.split_once('=').unwrap_or((word, ""));
    match kind {
        "line" => script.lines.push(Ok(Text::from_str(alloc, rest)?)),
        "pair" => script.dotenvs.push(Ok(pairs_of(alloc, rest)?)),
        "time" => script.timestamps.push(Ok(Text::from_str(alloc, rest)?)),
        "no-line" => script.lines.push(Err(fault_of(alloc, rest)?)),
        "no-pairs" => script.dotenvs.push(Err(fault_of(alloc, rest)?)),
        "no-time" => script.timestamps.push(Err(fault_of(alloc, rest)?)),
        _ => put_run(alloc, script, kind, rest),
    }
}

// A shell without arguments.
fn shell(alloc: Global) -> Result<Interpreter<Text>, AllocError> {
    Ok(Interpreter {
        command: Text::from_str(alloc, "sh")?,
        arguments: Sequence::new(alloc),
    })
}

// A shell runs a command.
fn ask_shell(alloc: Global, host: &mut Recorder) -> Result<RunAnswer, AllocError> {
    let call = ShellCall {
        shell: shell(alloc)?,
        command: Text::from_str(alloc, "a")?,
        working_directory: None,
        positional: None,
        environment: Sequence::new(alloc),
        is_quiet: false,
    };
    host.shell(&call)
}

// A script runs.
fn ask_script(alloc: Global, host: &mut Recorder) -> Result<RunAnswer, AllocError> {
    let executor = Executor::Shebang {
        interpreter: Text::from_str(alloc, "sh")?,
        argument: None,
    };
    let call = ScriptCall {
        recipe: Text::from_str(alloc, "a")?,
        executor,
        lines: Sequence::new(alloc),
        extension: None,
        working_directory: None,
        positional: None,
        environment: Sequence::new(alloc),
    };
    host.script(&call)
}

// A program runs in place of recipes.
fn ask_command(alloc: Global, host: &mut Recorder) -> Result<RunAnswer, AllocError> {
    let call = CommandCall {
        binary: Text::from_str(alloc, "a")?,
        arguments: Sequence::new(alloc),
        shell: None,
        working_directory: None,
        environment: Sequence::new(alloc),
    };
    host.command(&call)
}

// Adds how a program ended.
fn add_ended(answer: &RunAnswer, text: &mut String) -> Result<(), AllocError> {
    match &answer.status {
        Status::Code(code) => write!(text, " code {code}"),
        Status::NoCode(Some(number)) => write!(text, " killed {number}"),
        Status::NoCode(None) => text.push_str(" killed"),
        Status::NotStarted(reason) => write!(text, " missing {reason}"),
    }
}

// Adds pairs.
fn add_pairs(pairs: &[EnvironmentPair], text: &mut String) -> Result<(), AllocError> {
    text.push_str(" pairs")?;
    for pair in pairs {
        write!(text, " {}={}", pair.name, pair.value)?;
    }
    Ok(())
}

// Makes a call, and adds what it is answered.
fn ask(alloc: Global, host: &mut Recorder, call: &str, text: &mut String) -> Result<(), Refusal> {
    let given = Text::from_str(alloc, "a")?;
    let path = Modulepath::root(alloc);
    match call {
        "shell" => add_ended(&ask_shell(alloc, host)?, text)?,
        "script" => add_ended(&ask_script(alloc, host)?, text)?,
        "command" => add_ended(&ask_command(alloc, host)?, text)?,
        "confirm" => write!(text, " line {}", host.confirm(&given)?)?,
        "dotenv" => add_pairs(host.dotenv(&path, &given)?.as_slice(), text)?,
        "timestamp" => write!(text, " time {}", host.timestamp(&given)?)?,
        "show" => {
            host.show(&given)?;
            text.push_str(" done")?
        }
        _ => {
            host.begin(&path, &Sequence::new(alloc))?;
            text.push_str(" done")?
        }
    }
    Ok(())
}

// Makes calls, and adds a line for each, by its place from 1.
fn add_calls(
    alloc: Global,
    host: &mut Recorder,
    words: &str,
    text: &mut String,
) -> Result<(), AllocError> {
    for (place, word) in words.split_whitespace().enumerate() {
        write!(text, "{}", place.saturating_add(1))?;
        match ask(alloc, host, word, text) {
            Ok(()) => {}
            Err(Refusal::Memory) => text.push_str(" refused")?,
            Err(Refusal::Fault(fault)) => write!(text, " fault {fault}")?,
        }
        text.push('\n')?;
    }
    Ok(())
}

// The kind of a call.
fn kind_of(entry: &Entry) -> &'static str {
    match entry {
        Entry::Begin { .. } => "begin",
        Entry::Shell(_) => "shell",
        Entry::Script(_) => "script",
        Entry::Command(_) => "command",
        Entry::Confirm { .. } => "confirm",
        Entry::Show { .. } => "show",
        Entry::Dotenv { .. } => "dotenv",
        Entry::Timestamp { .. } => "timestamp",
    }
}

// Adds the line of the calls that were kept.
fn add_kept(entries: &[Entry], text: &mut String) -> Result<(), AllocError> {
    text.push_str("kept")?;
    for (place, entry) in entries.iter().enumerate() {
        text.push_str(before(place))?;
        text.push_str(kind_of(entry))?;
    }
    text.push('\n')
}

/// A recorder that answers from a script of these words.
pub fn scripted(alloc: Global, words: &str) -> Result<Recorder, AllocError> {
    let mut script = Script::new(alloc);
    for word in words.split_whitespace() {
        put(alloc, &mut script, unmarked(alloc, word)?.as_str())?;
    }
    Ok(Recorder::scripted(alloc, script))
}

// A recorder that answers from a script of these words, or that is refused memory at the call of a number.
fn recorder(alloc: Global, kind: &str, words: &str) -> Result<Recorder, AllocError> {
    if kind == "Recorder::memory_at" {
        return Ok(Recorder::memory_at(alloc, words.parse::<usize>().unwrap_or(0)));
    }
    scripted(alloc, words)
}

/// Answers what a recorder is answered to the calls that stand behind a ` | `, and which it keeps. Before that stand the
/// answers of its script, or the number of the call at which it is refused memory.
pub fn answer_recorder(alloc: Global, kind: &str, rest: &str) -> Result<String, AllocError> {
    let (words, calls) = rest.split_once(" | ").unwrap_or(("", rest));
    let mut host = recorder(alloc, kind, words)?;
    let mut answer = String::new(alloc);
    add_calls(alloc, &mut host, calls, &mut answer)?;
    add_kept(host.entries(), &mut answer)?;
    Ok(answer)
}
