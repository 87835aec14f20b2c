// What all records of a line share, and what they tell of its request (01, Lines).
ghost use Rattle.std.specs.Prelude.{◌≤◌};
ghost use Rattle.terms.specs.Limits.{request_lines};

use desks::Answer;
use program_rules::View;
use terms::letters::Letter;

// The view in which a line's records are written, and the line's number, at most 1,000,000.
#[derive(Clone, Copy)]
pub struct Heading {
    pub view: View,
    pub line: u64,
    pub ghost numbered: { line ≤ request_lines },
}

// A request as its records tell it: the letter and the cell asked for, and the answer, which names the job.
#[derive(Clone, Copy)]
pub struct Reply {
    pub letter: Letter,
    pub cell: u32,
    pub answer: Answer,
}
