// The judge on lines kept as numbers, for any arrays and any buffer: a refusal of the table, else the verdict (01, Refusals by number).
ghost use Rattle.std.specs.Prelude.{◌≡◌, ◌&&◌, ◌||◌, [], eqb, ltb, leb, ◌+◌, ◌≤◌, ◌<◌, length};
ghost use Rattle.terms.specs.Limits.{cells, judged_jobs, judged_lines};
ghost use Rattle.conflict.specs.Dirty.{dirty_of};
ghost use Rattle.judge_rules.specs.Judgement.{say_history};
ghost use Rattle.judge_rules.specs.Arrays.{history_by};
ghost use Rattle.judge_core.specs.Histories.{history_of};
ghost use Rattle.judge_core.specs.Kept.{event_at, event_fault, first_fault, kept_judgement, Flagged};

use crate::decide::decide;
use crate::dirty::{Dirt, first_dirty};
use crate::lines::{COMMIT, Faultless, GIVE_UP, Kept};
use crate::sizes::SLOTS;
use judge_rules::verdict::Verdict;
use terms::limits::{CELLS, JUDGED_JOBS, JUDGED_LINES};
use terms::refusals::Refusal;

// A faulty line: its number, and why it is refused.
#[derive(Clone, Copy)]
pub struct FaultyLine {
    pub line: usize,
    pub why: Refusal,
}

// Whether a line ends its job for good: a commit or a give-up. Crate `judge` tests its codes alike; one line shared would be a public function more.
fn ends_job(code: u8) -> bool
    ensures { result ≡ (eqb code 3 || eqb code 4) }
{
    code == COMMIT || code == GIVE_UP
}

// Whether a line has a cell above 63; only actions have a cell.
fn cell_above(code: u8, cell: u8) -> bool
    ensures { result ≡ (ltb code 3 && leb cells cell) }
{
    code < COMMIT && u32::from(cell) >= CELLS
}

// The fault of a line up to 4,096, given the jobs that have committed or given up: 12, then 2, then 13. A job above 255 does not fit a byte.
#[tactic(auto, using(crate::proofs::KeptFaults::fault_above, crate::proofs::KeptFaults::fault_ended, crate::proofs::KeptFaults::fault_none, crate::proofs::KeptFaults::fault_outside))]
fn fault_at(kept: Kept, ended: &[bool; SLOTS], p: usize) -> Option<Refusal>
    requires { (p < judged_lines) × Flagged ended.now (history_by kept.codes.now kept.jobs.now kept.cells.now p) }
    ensures { result ≡ event_fault (p + 1) (history_by kept.entry.codes.now kept.entry.jobs.now kept.entry.cells.now p) (event_at kept.entry.codes.now kept.entry.jobs.now kept.entry.cells.now p) }
{
    let job = usize::from(kept.jobs[p]);
    if job == 0 {
        return Some(Refusal::JobOutside);
    }
    if cell_above(kept.codes[p], kept.cells[p]) {
        return Some(Refusal::CellAbove);
    }
    if ended[job] {
        return Some(Refusal::Ended);
    }
    None
}

// Checks the first n lines in order, up to the first faulty line.
#[tactic(auto, using(crate::proofs::Faultless::at_end, crate::proofs::Faultless::at_found))]
fn first_fault(kept: Kept, n: usize) -> Result<(), FaultyLine>
    ensures { result ≡ first_fault 1 [] (history_by kept.entry.codes.now kept.entry.jobs.now kept.entry.cells.now n) }
{
    let mut ended = [false; SLOTS];
    for p in 0..n {
        let line = p + 1;
        if line > JUDGED_LINES {
            return Err(FaultyLine {
                line,
                why: Refusal::TooManyLines,
            });
        }
        if let Some(why) = fault_at(kept, &ended, p) {
            return Err(FaultyLine { line, why });
        }
        ended[usize::from(kept.jobs[p])] = ends_job(kept.codes[p]);
    }
    Ok(())
}

// The verdict on faultless lines, with its jobs in the buffer's first places; dirty is told before orderly or knot. The buffer is long enough.
#[tactic(auto, using(crate::proofs::DirtySaid::clean_said, crate::proofs::DirtySaid::dirty_said))]
fn judge_faultless(history: Faultless, order: &mut [u8]) -> Verdict
    requires { judged_jobs ≤ length order.old }
    ensures value { result ≡ (say_history order.old (history_of history.entry) (dirty_of (history_of history.entry))).said }
    ensures order_after { order.new ≡ (say_history order.old (history_of history.entry) (dirty_of (history_of history.entry))).order }
{
    match first_dirty(history) {
        None => decide(history, order),
        Some(Dirt { reader, writer }) => {
            order[..2].copy_from_slice(&[reader, writer]);
            Verdict::Dirty { reader, writer }
        }
    }
}

// The verdict on the first n lines, with its jobs in the buffer's first places. A short buffer gets 14; else the first faulty line decides. A refusal leaves the buffer unchanged.
#[tactic(auto, using(crate::proofs::Faultless::lines_celled, crate::proofs::Faultless::lines_few, crate::proofs::Faultless::lines_named, crate::proofs::KeptLaws::kept_faulty, crate::proofs::KeptLaws::kept_said, crate::proofs::KeptLaws::kept_short))]
pub fn judge_kept<'a>(
    codes: &'a [u8; JUDGED_LINES],
    jobs: &'a [u8; JUDGED_LINES],
    cells: &'a [u8; JUDGED_LINES],
    n: usize,
    order: &mut [u8],
) -> Verdict
    ensures value { result ≡ (kept_judgement codes.now jobs.now cells.now order.old n).said }
    ensures order_after { order.new ≡ (kept_judgement codes.now jobs.now cells.now order.old n).order }
{
    if order.len() < JUDGED_JOBS {
        return Verdict::No {
            line: 0,
            why: Refusal::ShortOrder,
        };
    }
    let kept = Kept { codes, jobs, cells };
    match first_fault(kept, n) {
        Ok(()) => judge_faultless(Faultless { kept, n }, order),
        Err(FaultyLine { line, why }) => Verdict::No { line, why },
    }
}
