// The code of a plan: whether a word is in it, the word that a content begins, and the words of a list.
#![tactic(auto)]

mod candidates;
mod encode;
mod extension;
mod interpolating;
mod letters;
mod listing;
mod member;
mod picking;
mod plan_code;
mod refusal;

pub use encode::write;
pub use listing::{Listing, WORKSPACE, list, ready};
pub use member::check;
pub use picking::pick;
pub use refusal::CodeFault;
