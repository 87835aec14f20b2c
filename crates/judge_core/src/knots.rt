// The knot (a cycle in the precedence graph): back from the smallest remaining job along smallest predecessors, until one comes again (01, The judge's rules: Knot).
ghost use Rattle.std.specs.Prelude.{◌≡◌, [], ◌++◌, ◌≤◌, ◌<◌, ◌==◌, length, take, drop};
ghost use Rattle.std.specs.List.{position};
ghost use Rattle.laws.specs.Lists.{filled};
ghost use Rattle.judge_rules.specs.Knot.{turn};
ghost use Rattle.judge_core.specs.Preceding.{walk_by};
ghost use Rattle.judge_core.specs.Rounds.{RoundAt};
ghost use Rattle.judge_core.specs.Sizes.{slots, stops};

use crate::order::NOBODY;
use crate::sizes::{SLOTS, STOPS};
use std::ops::Range;

// Where a job stands among those seen, if it does.
fn place_of(seen: &[u8], job: u8) -> Option<usize>
    ensures { result ≡ position (λ n. n == job) seen.now }
{
    seen.iter().position(|n| *n == job)
}

// Walks back from a job along smallest predecessors until a job comes again. Each job goes in front of the one before; the cycle is the trail from the second occurrence up to the first.
#[tactic(auto, using(crate::proofs::Trail::walked_none, crate::proofs::Trail::walked_off, crate::proofs::Trail::walked_out))]
pub fn walk_back(
    predecessors: &[usize; SLOTS],
    start: usize,
    trail: &mut [u8; STOPS],
) -> Range<usize>
    requires { start < slots }
    ensures { RoundAt (walk_by predecessors.now stops [] start) trail.new result.start result.end }
{
    let mut j = start;
    for at in (0..STOPS).rev() {
        let job = j as u8;
        let again = place_of(&trail[at + 1..], job);
        trail[at] = job;
        if let Some(ahead) = again {
            return at..at + 1 + ahead;
        }
        j = predecessors[j];
        if NOBODY <= j {
            break;
        }
    }
    0..0
}

// The place of the smallest job of a round.
#[tactic(auto, using(crate::proofs::Turning::best_turn))]
fn smallest_place(round: &[u8]) -> usize
    ensures { (result ≤ length round.now) × (turn round.now ≡ drop result round.now ++ take result round.now) }
{
    let mut best = 0;
    for (i, job) in round.iter().enumerate() {
        if *job < round[best] {
            best = i;
        }
    }
    best
}

// Puts a round into the first places of a buffer, starting at its smallest job.
pub fn put_turned(buffer: &mut [u8], round: &[u8])
    requires { length round.now ≤ length buffer.old }
    ensures { buffer.new ≡ filled (turn round.now) buffer.old }
{
    let (before, after) = round.split_at(smallest_place(round));
    buffer[..after.len()].copy_from_slice(after);
    buffer[after.len()..round.len()].copy_from_slice(before);
}
