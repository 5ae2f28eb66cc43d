//! What expressions of the small grammar come to: values, which are lists of texts; and with them constants, settings and
//! counts of texts.
#![tactic(auto)]

mod buffer;
mod constants;
mod counts;
mod lookup;
mod settings;
mod sink;
mod stack;
mod tasks;
mod values;

pub use buffer::Buffer;
pub use constants::constants_of;
pub use counts::count_fault;
pub use lookup::{Arguments, Constant, Constants, Functions, Locals, Variables};
pub use settings::settings_of;
pub use values::{evaluate_in, value_of};
