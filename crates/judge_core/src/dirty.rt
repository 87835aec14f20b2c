// The first dirty read: a run that commits reads what a still open run that does not commit has written or incremented (02, No. 2).
ghost use Rattle.std.specs.Prelude.{◌≡◌, ◌≤◌, ◌<◌, MatchOption};
ghost use Rattle.terms.specs.Limits.{judged_lines};
ghost use Rattle.conflict.specs.Dirty.{dirty_of};
ghost use Rattle.judge_core.specs.Histories.{history_of};
ghost use Rattle.judge_core.specs.RunEnds.{end_by, RunEnds, changing, later_end, reads_dirt, spoils_at, FirstRead, LastWrite, dirt_of};

use crate::lines::{COMMIT, Faultless, INCREMENT, Kept, READ, WRITE};
use crate::sizes::SLOTS;
use terms::limits::JUDGED_LINES;

// The reader and the writer of a dirty read.
#[derive(Clone, Copy)]
pub struct Dirt {
    pub reader: u8,
    pub writer: u8,
}

// Where a job's run ends as seen from line p, given the end as seen from the next line; 0 if the run commits.
#[tactic(auto, unfolding(crate::specs::RunEnds::end_by))]
fn end_by(code: u8, p: usize, later: u16) -> u16
    requires { p < judged_lines }
    ensures { result ≡ end_by code p later }
{
    if code < COMMIT {
        later
    } else if code == COMMIT {
        0
    } else {
        p as u16
    }
}

// For each line, where its run ends, worked out from the last line back: 0 if it commits, else the line of its mark, or n. So one comparison tells whether the run is open at a line and does not commit.
fn run_ends(history: Faultless) -> [u16; JUDGED_LINES]
    ensures { RunEnds history.entry.kept.codes.now history.entry.kept.jobs.now history.entry.n result }
{
    let kept = history.kept;
    let mut ends = [0; JUDGED_LINES];
    let mut seen = [history.n as u16; SLOTS];
    for p in (0..history.n).rev() {
        let j = usize::from(kept.jobs[p]);
        ends[p] = seen[j];
        seen[j] = end_by(kept.codes[p], p, seen[j]);
    }
    ends
}

// Whether a line writes or increments.
#[tactic(auto, unfolding(crate::specs::RunEnds::changing))]
fn changes(code: u8) -> bool
    ensures { result ≡ changing code }
{
    code == WRITE || code == INCREMENT
}

// The later of `latest` and the end of this line's run, if the line writes or increments; else `latest`.
#[tactic(auto, unfolding(crate::specs::RunEnds::later_end))]
fn later_end(code: u8, end: u16, latest: u16) -> u16
    ensures { result ≡ later_end code end latest }
{
    if changes(code) {
        latest.max(end)
    } else {
        latest
    }
}

// Whether line p is a read of a run that commits while a run that changed its cell is open, given the latest end of such runs.
#[tactic(auto, unfolding(crate::specs::RunEnds::reads_dirt))]
fn reads_dirt(code: u8, end: u16, latest: u16, p: usize) -> bool
    ensures { result ≡ reads_dirt code end latest p }
{
    code == READ && end == 0 && p < usize::from(latest)
}

// The first dirty read, if any; keeps for each cell the latest end of the runs that changed it.
#[tactic(auto, using(crate::proofs::DirtyPasses::dirty_by))]
fn first_read(history: Faultless, ends: &[u16; JUDGED_LINES]) -> Option<usize>
    ensures { let found = FirstRead history.entry.kept.codes.now history.entry.kept.cells.now ends.now history.entry.n in MatchOption result (found history.entry.n) (λ p. (p < history.entry.n) × found p) }
{
    let kept = history.kept;
    let mut latest = [0; SLOTS];
    for p in 0..history.n {
        let cell = usize::from(kept.cells[p]);
        if reads_dirt(kept.codes[p], ends[p], latest[cell], p) {
            return Some(p);
        }
        latest[cell] = later_end(kept.codes[p], ends[p], latest[cell]);
    }
    None
}

// Whether line q changes the cell of line p, in a run that is open at p and does not commit.
#[tactic(auto, unfolding(crate::specs::RunEnds::spoils_at))]
fn spoils(kept: Kept, ends: &[u16; JUDGED_LINES], p: usize, q: usize) -> bool
    requires { (p < judged_lines) × (q < judged_lines) }
    ensures { result ≡ spoils_at kept.entry.codes.now kept.entry.cells.now ends.now p q }
{
    kept.cells[q] == kept.cells[p] && changes(kept.codes[q]) && p < usize::from(ends[q])
}

// The last line before p that makes a read there dirty, or p. A dirty read has one, so an Option would bring its caller a case that never comes.
#[tactic(auto, using(crate::proofs::DirtyPasses::back_found, crate::proofs::DirtyPasses::back_none, crate::proofs::DirtyPasses::back_past))]
fn last_write(kept: Kept, ends: &[u16; JUDGED_LINES], p: usize) -> usize
    requires { p < judged_lines }
    ensures { LastWrite kept.entry.codes.now kept.entry.cells.now ends.now p result }
{
    for q in (0..p).rev() {
        if spoils(kept, ends, p, q) {
            return q;
        }
    }
    p
}

// Reader and writer of the first dirty read, if any.
#[tactic(auto, using(crate::proofs::DirtyFirst::first_dirty, crate::proofs::DirtyFirst::none_dirty))]
pub fn first_dirty(history: Faultless) -> Option<Dirt>
    ensures { result ≡ dirt_of (dirty_of (history_of history.entry)) }
{
    let kept = history.kept;
    let ends = run_ends(history);
    let p = first_read(history, &ends)?;
    let q = last_write(kept, &ends, p);
    Some(Dirt {
        reader: kept.jobs[p],
        writer: kept.jobs[q],
    })
}
