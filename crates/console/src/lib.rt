// The console's state and answers: the field chosen and the plan made last, what each command does to them, and how
// the answers are written.
#![tactic(auto)]

pub mod answer;
pub mod any_field;
pub mod state;
pub mod word;
pub mod words;

pub use answer::{Answer, Trouble};
pub use any_field::AnyField;
pub use state::Console;
pub use word::Letters;
