// Quick tests on two jobs: each job's cells by kind of action, and its last action of each kind on each cell (01, The judge's rules).
ghost use Rattle.std.specs.Prelude.{◌≡◌, ◌≤◌, ◌<◌};
ghost use Rattle.judge_core.specs.Reaching.{Acting, Covered, Lasts, set_key, touched_at, last_key};
ghost use Rattle.judge_core.specs.Sizes.{slots, kind_sets, keys};

use crate::lines::{COMMIT, Faultless, INCREMENT, READ, WRITE};
use crate::sizes::{KEYS, KIND_SETS, SLOTS};
use conflict::cells::{Touched, with_cell};
use terms::limits::JUDGED_LINES;

// A fourth number beside those of the three kinds: a line of any kind. Kinds stay numbers in these tables, since a kept code is a part of the index.
pub const ANY: u8 = 3;

// The index of the set of job j's cells of a kind.
fn set_key(j: usize, kind: u8) -> usize
    requires { (j < slots) × (kind < 3) }
    ensures { (result ≡ set_key j kind) × (result < kind_sets) }
{
    usize::from(kind) * SLOTS + j
}

// For each job and kind, the cells of the lines that the job owns.
pub fn cells_of(history: Faultless, owners: &[u8; JUDGED_LINES]) -> [u64; KIND_SETS]
    ensures { Covered history.entry.kept.codes.now history.entry.kept.cells.now owners.now history.entry.n result }
{
    let kept = history.kept;
    let mut sets = [0; KIND_SETS];
    for p in 0..history.n {
        let code = kept.codes[p];
        if code < COMMIT {
            let key = set_key(usize::from(owners[p]), code);
            sets[key] = with_cell(sets[key], u32::from(kept.cells[p]));
        }
    }
    sets
}

// The sets of one job.
#[tactic(auto, using(crate::proofs::Covering::touched_is))]
pub fn touched(sets: &[u64; KIND_SETS], j: usize) -> Touched
    requires { j < slots }
    ensures { result ≡ touched_at sets.now j }
{
    Touched {
        reads: sets[set_key(j, READ)],
        writes: sets[set_key(j, WRITE)],
        increments: sets[set_key(j, INCREMENT)],
    }
}

// The index of job j's last action of a kind on a cell; with ANY, of its last action of any kind.
pub fn last_key(j: usize, kind: u8, cell: u8) -> usize
    requires { (j < slots) × (kind < 4) × (cell < 64) }
    ensures { (result ≡ last_key j kind cell) × (result < keys) }
{
    usize::from(cell) * (SLOTS * 4) + j * 4 + usize::from(kind)
}

// One more than each job's last line of each kind (and of any kind) on each cell; 0 if there is none. So one comparison tells whether there is one that stands late enough.
pub fn last_lines(history: Faultless, owners: &[u8; JUDGED_LINES]) -> [u16; KEYS]
    requires { Acting history.kept.codes.now history.kept.jobs.now history.kept.cells.now owners.now history.n }
    ensures { Lasts history.entry.kept.codes.now history.entry.kept.cells.now owners.now history.entry.n result }
{
    let kept = history.kept;
    let mut lasts = [0; KEYS];
    for p in 0..history.n {
        let j = usize::from(owners[p]);
        if j != 0 {
            let cell = kept.cells[p];
            lasts[last_key(j, ANY, cell)] = (p + 1) as u16;
            lasts[last_key(j, kept.codes[p], cell)] = (p + 1) as u16;
        }
    }
    lasts
}
