//! What values are evaluated from, and the small records of a text: quoted texts, keywords, sigils; settings and scopes as
//! they are evaluated.
#![tactic(auto)]

pub mod expression;
pub mod interpreter;
pub mod keyword;
pub mod list_use;
mod parts;
pub mod scope;
pub mod settings;
pub mod sigil;
pub mod string_literal;
pub mod unstable_feature;
pub mod warning;

pub use expression::{ConditionalOperator, Expression, Shape};
pub use interpreter::Interpreter;
pub use keyword::Keyword;
pub use list_use::ListUse;
pub use scope::{Binding, Scope};
pub use settings::Settings;
pub use sigil::Sigil;
pub use string_literal::StringLiteral;
pub use unstable_feature::UnstableFeature;
pub use warning::Warning;
