// The lines that come in and the records that go out, as definitions; the types that these speak of; and the splitter, whose methods stand with its type (01, Lines).
#![tactic(auto)]

pub mod splitter;

pub use splitter::{Cut, Splitter, line_end};
use terms::{Field, Letter};

// A good line: its letter, job and cell, 0 for a field that the letter does not have.
#[derive(Clone, Copy)]
pub struct Line {
    pub letter: Letter,
    pub job: u32,
    pub cell: u32,
}

// What a line says: a good line, or the field at fault of a bad one, which is refusal 9.
pub type Reading = Result<Line, Field>;

// A number field of a line: the number, and the place after it.
#[derive(Clone, Copy)]
pub struct Numeral {
    pub value: u32,
    pub next: usize,
}
