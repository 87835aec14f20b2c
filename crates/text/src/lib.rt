// The line reader and the record writer: lines that come in, records that go out (01, Lines).
#![tactic(auto)]

pub mod held;
pub mod reader;
pub mod writer;

pub use held::{read_held, torn_held};
pub use reader::{read_history, read_request, torn_request};
pub use writer::{
    has_room, width, write_answer, write_end, write_field, write_line, write_number, write_word,
};
