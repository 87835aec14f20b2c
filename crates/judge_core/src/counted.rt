// Which lines count: which jobs have a c, and from which line on each job's actions count (01, The judge's rules: the committed part).
ghost use Rattle.std.specs.Prelude.{◌≡◌, ◌<◌};
ghost use Rattle.judge_core.specs.Lists.{values_of};
ghost use Rattle.judge_core.specs.Counted.{has_commit, counted_from, owner_at, owners_by, ByteJobs};
ghost use Rattle.terms.specs.Limits.{judged_lines};
ghost use Rattle.judge_core.specs.Sizes.{slots};

use crate::lines::{COMMIT, Faultless, GIVE_UP, Kept};
use crate::sizes::SLOTS;
use terms::limits::JUDGED_LINES;

// Which jobs have a c. This pass and the next stay two loops: one over a table's first value and a closure for its step is longer than both, and the definitions are two.
#[tactic(auto, using(crate::proofs::Marking::commits_keep, crate::proofs::Marking::commits_none, crate::proofs::Marking::commits_set))]
pub fn committed_jobs(history: Faultless) -> [bool; SLOTS]
    ensures value { result ≡ values_of (has_commit history.entry.kept.codes.now history.entry.kept.jobs.now history.entry.n) slots }
    ensures bytes { ByteJobs history.entry.kept.jobs.now history.entry.n }
{
    let kept = history.kept;
    let mut done = [false; SLOTS];
    for p in 0..history.n {
        let job = usize::from(kept.jobs[p]);
        if kept.codes[p] == COMMIT {
            done[job] = true;
        }
    }
    done
}

// For each job, the line from which its actions count: the line after its last k, or the first line.
#[tactic(auto, using(crate::proofs::Marking::since_keep, crate::proofs::Marking::since_none, crate::proofs::Marking::since_set))]
pub fn counted_from(history: Faultless) -> [usize; SLOTS]
    ensures { result ≡ values_of (counted_from history.entry.kept.codes.now history.entry.kept.jobs.now history.entry.n) slots }
{
    let kept = history.kept;
    let mut since = [0; SLOTS];
    for p in 0..history.n {
        if GIVE_UP < kept.codes[p] {
            since[usize::from(kept.jobs[p])] = p + 1;
        }
    }
    since
}

// The owner of line p: its job, if the line is an action that counts, else 0. No job is 0, and the tables have a slot for it, so an Option would only be taken apart.
#[tactic(auto, using(crate::proofs::Marking::owner_early, crate::proofs::Marking::owner_job, crate::proofs::Marking::owner_mark))]
fn owner(kept: Kept, since: &[usize; SLOTS], p: usize) -> u8
    requires { p < judged_lines }
    ensures { result ≡ owner_at kept.entry.codes.now kept.entry.jobs.now since.now p }
{
    let job = kept.jobs[p];
    if kept.codes[p] < COMMIT && since[usize::from(job)] <= p {
        job
    } else {
        0
    }
}

// The owner of each line.
#[tactic(auto, using(crate::proofs::Marking::owners_set))]
pub fn owners(history: Faultless, since: &[usize; SLOTS]) -> [u8; JUDGED_LINES]
    ensures { result ≡ values_of (owners_by history.entry.kept.codes.now history.entry.kept.jobs.now since.now history.entry.n) judged_lines }
{
    let mut all = [0; JUDGED_LINES];
    for p in 0..history.n {
        all[p] = owner(history.kept, since, p);
    }
    all
}
