//! What tries the analyzer without a host of one's own: a recorder, a writer, bundles of files, a text that is read as the
//! root, words that are run over a module, and what the program writes of a run and of an error.
#![tactic(auto)]

mod entries;
pub mod laws;
mod messages;
mod one_line;
mod program_error;
pub mod recorder;
mod run;
pub mod script;
pub mod stop_writer;
mod texts;
mod words;

pub use entries::write_entries;
pub use just_bench_bundle::{
    BundleError, FileLine, InputError, line_of, paths_like, read_sources, read_text,
};
pub use just_bench_evaluation::PlainEvaluation;
pub use just_bench_reading::{parse, root_source};
pub use just_bench_syntax::PlainSyntax;
pub use messages::{tell, tell_usage};
pub use program_error::ProgramError;
pub use recorder::Recorder;
pub use run::run_and_write;
pub use script::{Queue, Script};
pub use stop_writer::StopWriter;
pub use words::run_words;
