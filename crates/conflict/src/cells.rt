// Sets of cells as 64 bits, and the cells on which the actions of two jobs can conflict (01, The judge's rules).
ghost use Rattle.std.specs.Prelude.{◌≡◌, ◌&&◌, ◌||◌, eqb, ltb, ℕ};
ghost use Rattle.terms.specs.Limits.{cells};
ghost use Rattle.conflict.specs.Cells.{in_set, can_conflict};

use terms::limits::CELLS;

// The cells that a job reads, writes and increments, each as a set.
#[derive(Clone, Copy)]
pub struct Touched {
    pub reads: u64,
    pub writes: u64,
    pub increments: u64,
}

// A set with one more cell. A number that is not a cell leaves the set as it is.
#[tactic(auto, using(crate::proofs::CellSets::cell_more, crate::proofs::CellSets::cell_none))]
pub fn with_cell(set: u64, cell: u32) -> u64
    ensures { (c : ℕ) → in_set result c ≡ ((eqb cell c && ltb cell cells) || in_set set c) }
{
    if cell >= CELLS {
        return set;
    }
    set | (1 << cell)
}

// Whether a cell is in a set.
#[tactic(auto, using(crate::proofs::CellSets::cell_nowhere, crate::proofs::CellSets::cell_there))]
pub fn has_cell(set: u64, cell: u32) -> bool
    ensures { result ≡ (ltb cell cells && in_set set cell) }
{
    cell < CELLS && (set >> cell) & 1 == 1
}

// The cells on which two jobs can conflict, as a set: both jobs have an action there, and the kinds of the two do not agree.
#[tactic(auto, using(crate::proofs::CellSets::meeting_tells))]
pub fn meeting_cells(a: Touched, b: Touched) -> u64
    ensures { (c : ℕ) → in_set result c ≡ can_conflict a b c }
{
    let read = a.reads & (b.writes | b.increments);
    let written = a.writes & (b.reads | (b.writes | b.increments));
    let incremented = a.increments & (b.reads | b.writes);
    read | (written | incremented)
}
