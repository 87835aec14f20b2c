// The deciding half of the judge: the verdict on lines kept as three numbers each (01, The judge's rules).
ghost use Rattle.std.specs.Prelude.{◌≡◌, [], ◌≤◌, ◌<◌, length};
ghost use Rattle.judge_rules.specs.Knot.{turn};
ghost use Rattle.judge_rules.specs.Judged.{knotted, finding_of};
ghost use Rattle.judge_rules.specs.Judgement.{say_finding};
ghost use Rattle.judge_core.specs.Histories.{history_of};
ghost use Rattle.judge_core.specs.Preceding.{walk_by};
ghost use Rattle.judge_core.specs.Taking.{Took};
ghost use Rattle.terms.specs.Limits.{judged_jobs};
ghost use Rattle.judge_core.specs.Sizes.{slots, stops};

use crate::counted::{committed_jobs, counted_from, owners};
use crate::edges::Graph;
use crate::grouping::{grouped, starts, tallies};
use crate::knots::{put_turned, walk_back};
use crate::lines::Faultless;
use crate::order::{Taken, smallest_left, take_away};
use crate::sets::{cells_of, last_lines};
use crate::sizes::{SLOTS, STOPS};
use judge_rules::verdict::Verdict;

// Takes away the jobs with a c, by the edges between them, and puts them in order.
#[tactic(auto, using(crate::proofs::Assembled::none_zero, crate::proofs::Workings::acting))]
fn take_jobs(history: Faultless) -> Taken
    ensures { Took (history_of history.entry) result.left result.placed result.predecessors result.count }
{
    let jobs = committed_jobs(history);
    let since = counted_from(history);
    let owner = owners(history, &since);
    let count = tallies(&owner, history.n);
    let start = starts(&count);
    let lines = grouped(&owner, &start, history.n);
    let lasts = last_lines(history, &owner);
    let sets = cells_of(history, &owner);
    let graph = Graph {
        kept: history.kept,
        lines: &lines,
        starts: &start,
        lasts: &lasts,
        sets: &sets,
    };
    take_away(&graph, jobs)
}

// Puts the knot that the walk back from a job ends in into the buffer's first places.
#[tactic(auto, using(crate::proofs::Said::knot_said))]
fn knot(predecessors: &[usize; SLOTS], start: usize, order: &mut [u8]) -> Verdict
    requires { (start < slots) × (length (turn (walk_by predecessors.now stops [] start)) ≤ length order.old) }
    ensures value { result ≡ (say_finding order.old (knotted (turn (walk_by predecessors.now stops [] start)))).said }
    ensures order_after { order.new ≡ (say_finding order.old (knotted (turn (walk_by predecessors.now stops [] start)))).order }
{
    let mut trail = [0u8; STOPS];
    let round = walk_back(predecessors, start, &mut trail);
    let length = round.len();
    put_turned(order, &trail[round]);
    Verdict::Knot(length)
}

// The verdict on a history without a dirty read, with its jobs in the buffer's first places. The buffer is long enough.
pub fn decide(history: Faultless, order: &mut [u8]) -> Verdict
    requires { judged_jobs ≤ length order.old }
    ensures value { result ≡ (say_finding order.old (finding_of (history_of history.entry))).said }
    ensures order_after { order.new ≡ (say_finding order.old (finding_of (history_of history.entry))).order }
{
    let taken = take_jobs(history);
    match smallest_left(&taken.left) {
        Some(first) => knot(&taken.predecessors, first, order),
        None => {
            let count = taken.count;
            order[..count].copy_from_slice(&taken.placed[..count]);
            Verdict::Orderly(count)
        }
    }
}
