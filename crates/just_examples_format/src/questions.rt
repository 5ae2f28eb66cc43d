//! What a line `$ just` asks, and lines `$ command` and `$ evaluate`.
use crate::marks::unmarked;
use just_data::{Sequence, Text};
use just_parts::layers::{Config, EvaluateFormat, Subcommand, Verbosity};
use just_paths::Modulepath;
use std::alloc::{AllocError, Global};

// What a part of the line is to be.
#[derive(Clone, Copy, PartialEq, Eq)]
enum Part {
    OptionOrWord,
    Home,
    Folder,
    Root,
    Conflicts,
    Override,
    Memory,
    Failing,
    Answer,
    Room,
    Word,
}

// The path of the module of these names, which are joined by `::`; where there are none it is the root's.
fn module_path(alloc: Global, names: &str) -> Result<Modulepath, AllocError> {
    let mut path = Modulepath::root(alloc);
    for name in names.split("::") {
        if !name.is_empty() {
            path = path.join(name)?;
        }
    }
    Ok(path)
}

// The words behind a word `shell`, where they begin with one.
fn behind_shell(words: &[String]) -> Option<&[String]> {
    let (first, rest) = words.split_first()?;
    if first.as_str() == "shell" {
        return Some(rest);
    }
    None
}

fn texts_of(alloc: Global, words: &[String]) -> Result<Sequence<Text>, AllocError> {
    let mut texts = Sequence::new(alloc);
    for word in words {
        texts.push(Text::from_str(alloc, word.as_str())?)?;
    }
    Ok(texts)
}

/// A root, a configuration and words.
#[derive(Drop)]
pub struct Asked {
    /// What `--one`, `--home`, `--folder`, `--override` and the options of a run say.
    pub config: Config,
    /// The path of the root, which may be one that is not clean.
    pub root: String,
    /// Pairs of settings with a comma between the two, a blank after each: the second may not stand beside the first.
    pub conflicts: String,
    /// The call at which the host is refused memory, where there is one. Calls count from 1.
    pub memory_at: Option<usize>,
    /// The question of a run that the evaluation answers by a fault, or 0. Questions count from 1.
    pub failing_at: usize,
    /// What the host answers, as `--answer` says, a blank after each.
    pub answers: String,
    /// How many bytes may be written.
    pub room: usize,
    words: Vec<String>,
    next: Part,
}

impl Asked {
    // The root `/justfile`, the configuration without options, and no words.
    fn new(alloc: Global) -> Result<Asked, AllocError> {
        Ok(Asked {
            config: Config::new(alloc),
            root: String::from_str(alloc, "/justfile")?,
            conflicts: String::new(alloc),
            memory_at: None,
            failing_at: 0,
            answers: String::new(alloc),
            room: 65_536,
            words: Vec::new(alloc),
            next: Part::OptionOrWord,
        })
    }

    /// The words, borrowed.
    pub fn words(&self, alloc: Global) -> Result<Vec<&str>, AllocError> {
        self.words.iter().map(|word| word.as_str()).collect(alloc)
    }

    /// The first word, or an empty one.
    pub fn first_word(&self) -> &str {
        match self.words.first() {
            Some(word) => word.as_str(),
            None => "",
        }
    }

    /// Lets the configuration ask for values: where the first word is `shell`, as a shell takes them; and of the path that the
    /// last word is, where there is another one.
    pub fn ask_for_values(&mut self, alloc: Global) -> Result<(), AllocError> {
        let is_shell = self.first_word() == "shell";
        let path = match self.words.get(usize::from(is_shell)) {
            Some(path) => Some(module_path(alloc, path.as_str())?),
            None => None,
        };
        let format = if is_shell {
            EvaluateFormat::Shell
        } else {
            EvaluateFormat::Just
        };
        self.config.subcommand = Subcommand::Evaluate { format, path };
        Ok(())
    }

    /// Lets the configuration ask for a program, which the first word is, with the others as its arguments; a word `shell` before
    /// it says that a shell runs it.
    pub fn ask_for_program(&mut self, alloc: Global) -> Result<(), AllocError> {
        let behind = behind_shell(self.words.as_slice());
        let words = behind.unwrap_or(self.words.as_slice());
        let Some((binary, rest)) = words.split_first() else {
            return Ok(());
        };
        let subcommand = Subcommand::Command {
            binary: Text::from_str(alloc, binary.as_str())?,
            arguments: texts_of(alloc, rest)?,
        };
        let is_shell = behind.is_some();
        self.config.shell_command = is_shell;
        self.config.subcommand = subcommand;
        Ok(())
    }

    // An option or a word. What follows the first word is a word.
    fn take_option(&mut self, alloc: Global, part: &str) -> Result<(), AllocError> {
        match part {
            "--one" => self.config.one = true,
            "--home" => self.next = Part::Home,
            "--folder" => self.next = Part::Folder,
            "--justfile" => self.next = Part::Root,
            "--conflicts" => self.next = Part::Conflicts,
            "--override" => self.next = Part::Override,
            "--memory" => self.next = Part::Memory,
            "--failing" => self.next = Part::Failing,
            "--answer" => self.next = Part::Answer,
            "--room" => self.next = Part::Room,
            "--no-dependencies" => self.config.no_dependencies = true,
            "--load-dotenv" => self.config.load_dotenv = true,
            "--dry-run" => self.config.dry_run = true,
            "--explain" => self.config.explain = true,
            "--timestamp" => self.config.timestamp = true,
            "--yes" => self.config.yes = true,
            "--quiet" => self.config.verbosity = Verbosity::Quiet,
            "--loquacious" => self.config.verbosity = Verbosity::Loquacious,
            "--grandiloquent" => self.config.verbosity = Verbosity::Grandiloquent,
            _ => {
                self.next = Part::Word;
                self.words.push(unmarked(alloc, part)?)?;
            }
        }
        Ok(())
    }

    // The path of a variable and the value that overrides it, with `=` between the two.
    fn take_override(&mut self, alloc: Global, part: &str) -> Result<(), AllocError> {
        let (path, value) = part.split_once('=').unwrap_or((part, ""));
        let (names, name) = path.rsplit_once("::").unwrap_or(("", path));
        let key = (module_path(alloc, names)?, Text::from_str(alloc, name)?);
        let value = unmarked(alloc, value)?;
        self.config
            .overrides
            .insert(key, Text::from_string(value)?)?;
        Ok(())
    }

    // The next part of the line.
    fn take(&mut self, alloc: Global, part: &str) -> Result<(), AllocError> {
        match self.next {
            Part::OptionOrWord => return self.take_option(alloc, part),
            Part::Home => self.config.home = Some(Text::from_str(alloc, part)?),
            Part::Folder => self.config.working_directory = Some(Text::from_str(alloc, part)?),
            Part::Root => self.root = unmarked(alloc, part)?,
            Part::Conflicts => write!(self.conflicts, "{part} ")?,
            Part::Override => self.take_override(alloc, part)?,
            Part::Memory => self.memory_at = part.parse::<usize>().ok(),
            Part::Failing => self.failing_at = part.parse::<usize>().unwrap_or(0),
            Part::Answer => write!(self.answers, "{part} ")?,
            Part::Room => self.room = part.parse::<usize>().unwrap_or(0),
            Part::Word => {
                self.words.push(unmarked(alloc, part)?)?;
                return Ok(());
            }
        }
        self.next = Part::OptionOrWord;
        Ok(())
    }
}

/// What stands behind `$ just`: the options `--one`, `--home PATH`, `--folder PATH`, `--justfile PATH`, `--conflicts A,B`,
/// `--override PATH=VALUE`, `--memory CALL`, `--failing QUESTION`, `--answer ANSWER`, `--room COUNT`, `--no-dependencies`,
/// `--load-dotenv`, `--dry-run`, `--explain`, `--timestamp`, `--yes`, `--quiet`, `--loquacious` and `--grandiloquent`, then
/// words.
pub fn read_asked(alloc: Global, line: &str) -> Result<Asked, AllocError> {
    let mut asked = Asked::new(alloc)?;
    for part in line.split_whitespace() {
        asked.take(alloc, part)?;
    }
    Ok(asked)
}
