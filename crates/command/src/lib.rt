// Commands over text: which command the words of a line spell, the numbers among them, and carrying it out.
#![tactic(auto)]

mod run;
mod words;

pub use run::run_line;
pub use words::passed_over;
