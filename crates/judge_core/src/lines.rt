// The lines of a history as they are kept: three numbers each, what the line says, its job and its cell (01, The judge's rules).
ghost use Rattle.std.specs.Prelude.{◌≡◌, ℕ, ◌≤◌, ◌<◌, get_or};
ghost use Rattle.terms.specs.Limits.{judged_lines};

use terms::limits::JUDGED_LINES;

// What a line says, as a number; any other stands for sent back. The actions stand below the marks.
// They stay bytes: crate `judge` lends arrays of them, and `history_by` of crate `judge_rules` says what each stands for.
pub const READ: u8 = 0;

pub const WRITE: u8 = 1;

pub const INCREMENT: u8 = 2;

pub const COMMIT: u8 = 3;

pub const GIVE_UP: u8 = 4;

// Lines of which nothing is known. They stay three arrays of fixed size, since `judge_kept` is lent them so.
#[derive(Clone, Copy)]
pub struct Kept<'a> {
    pub codes: &'a [u8; JUDGED_LINES],
    pub jobs: &'a [u8; JUDGED_LINES],
    pub cells: &'a [u8; JUDGED_LINES],
}

// The first n lines, which fit the arrays: each names a job, and each action a cell up to 63.
#[derive(Clone, Copy)]
pub struct Faultless<'a> {
    pub kept: Kept<'a>,
    pub n: usize,
    pub ghost few: { n ≤ judged_lines },
    pub ghost named: { (p : ℕ) → p < n → get_or kept.jobs.now p 0 ≡ 0 → ⊥ },
    pub ghost celled: { (p : ℕ) → p < n → get_or kept.codes.now p 0 < 3 → get_or kept.cells.now p 0 < 64 },
}
