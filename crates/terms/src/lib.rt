// The paper's words and numbers. Each stands here once, and every other crate takes it from here.
#![tactic(auto)]

pub mod letters;
pub mod limits;
pub mod refusals;
pub mod words;

pub use letters::{Ask, Letter, has_cell, has_job, letter_of, of_histories, of_requests};
pub use refusals::{Field, Refusal, field_of};
pub use words::{Word, spelled};
