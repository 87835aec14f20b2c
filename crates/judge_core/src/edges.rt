// The edges of the precedence graph: an earlier action of one job conflicts with a later action of another (01, The judge's rules).
ghost use Rattle.std.specs.Prelude.{◌≡◌, true, ℕ, ◌≤◌, ◌<◌, get_or};
ghost use Rattle.laws.specs.Lists.{member};
ghost use Rattle.judge_core.specs.Meeting.{kind_by, action_at, clashing, meetings};
ghost use Rattle.judge_core.specs.Grouped.{Lined, part_at};
ghost use Rattle.judge_core.specs.Reaching.{Masked, Worked, last_met, may_meet};
ghost use Rattle.terms.specs.Limits.{judged_lines};
ghost use Rattle.judge_core.specs.Sizes.{slots};

use crate::lines::{Kept, READ, WRITE};
use crate::sets::{ANY, last_key, touched};
use crate::sizes::{KEYS, KIND_SETS, STOPS};
use conflict::action::{Action, Kind, actions_conflict};
use conflict::cells::{has_cell, meeting_cells};
use terms::limits::CELLS;

// Everything from which the edges are worked out: the lines that count, grouped by job, and where each job's start; each job's last lines, and its sets of cells.
#[derive(Clone, Copy)]
pub struct Graph<'a> {
    pub kept: Kept<'a>,
    pub lines: &'a [u16],
    pub starts: &'a [usize; STOPS],
    pub lasts: &'a [u16; KEYS],
    pub sets: &'a [u64; KIND_SETS],
    pub ghost worked: { Worked kept.codes.now kept.jobs.now kept.cells.now lines.now starts.now lasts.now sets.now },
}

// The kind of action of a code.
#[tactic(auto, unfolding(crate::specs::Meeting::kind_by))]
fn kind_of(code: u8) -> Kind
    ensures { result ≡ kind_by code }
{
    match code {
        READ => Kind::Read,
        WRITE => Kind::Write,
        _ => Kind::Increment,
    }
}

// The action on a line.
#[tactic(auto, using(crate::proofs::Acting::action_made))]
fn action_at(kept: Kept, p: usize) -> Action
    requires { p < judged_lines }
    ensures { result ≡ action_at kept.entry.codes.now kept.entry.jobs.now kept.entry.cells.now p }
{
    Action {
        kind: kind_of(kept.codes[p]),
        job: u32::from(kept.jobs[p]),
        cell: u32::from(kept.cells[p]),
    }
}

// Whether no line of ys stands after a line of xs; both are in ascending order.
#[tactic(auto, using(crate::proofs::Reaching::apart_empty, crate::proofs::Reaching::apart_order))]
fn apart(xs: &[u16], ys: &[u16]) -> bool
    requires { Lined xs.now × Lined ys.now }
    ensures { result ≡ true → (x y : ℕ) → member x xs.now ≡ true → member y ys.now ≡ true → y ≤ x }
{
    let Some(first) = xs.first() else {
        return true;
    };
    let Some(last) = ys.last() else {
        return true;
    };
    *last <= *first
}

impl<'a> Graph<'a> {
    ghost use Rattle.judge_core.specs.Edges.{edges_of};

    // Job j's lines, in order.
    #[tactic(auto, unfolding(crate::specs::Grouped::part_at))]
    fn part(&self, j: usize) -> &'a [u16]
        requires { j < slots }
        ensures { result.now ≡ part_at self.now.lines.now self.now.starts.now j }
    {
        let lines = self.lines;
        &lines[self.starts[j]..self.starts[j + 1]]
    }

    // Whether job j's last action of a kind on line x's cell stands after line x and conflicts with its action.
    #[tactic(auto, using(crate::proofs::Reaching::last_early, crate::proofs::Reaching::last_late, crate::proofs::Reaching::other_made))]
    fn meets_last(&self, x: usize, j: usize, kind: u8) -> bool
        requires { (x < judged_lines) × (j < slots) × (kind < 3) × (get_or self.now.kept.cells.now x 0 < 64) }
        ensures { result ≡ last_met self.now.kept.codes.now self.now.kept.jobs.now self.now.kept.cells.now self.now.lasts.now j x kind }
    {
        let cell = self.kept.cells[x];
        if usize::from(self.lasts[last_key(j, kind, cell)]) <= x + 1 {
            return false;
        }
        let other = Action {
            kind: kind_of(kind),
            job: j as u32,
            cell: u32::from(cell),
        };
        actions_conflict(action_at(self.kept, x), other)
    }

    // Whether line x is on a cell of the set, and job j's last action on that cell stands after it. The last action is tested first: for two jobs its outcome is mostly the same on all cells, unlike the set's.
    #[tactic(auto, using(crate::proofs::Reaching::may_early, crate::proofs::Reaching::may_set))]
    fn may_meet(&self, mask: u64, x: usize, j: usize) -> bool
        requires { (x < judged_lines) × (j < slots) }
        ensures { result ≡ may_meet self.now.kept.cells.now self.now.lasts.now mask j x }
    {
        let cell = self.kept.cells[x];
        if u32::from(cell) >= CELLS {
            return false;
        }
        if usize::from(self.lasts[last_key(j, ANY, cell)]) <= x + 1 {
            return false;
        }
        has_cell(mask, u32::from(cell))
    }

    // Whether a line of xs stands before a line of job j that it conflicts with. The search stops at the first such pair.
    // Lines of xs are tried from the last back, since a job mostly writes what it has read before. It skips lines on cells where the two jobs cannot conflict,
    // or where job j's last line stands too early. Of job j's lines on a cell, the last of each kind decides.
    // The loops stay labelled, and are left from inside, as 01 names them.
    #[tactic(auto, using(crate::proofs::Reaching::apart_none, crate::proofs::Searching::meets_end))]
    fn meets(&self, mask: u64, xs: &[u16], j: usize) -> bool
        requires j_lt_slots { (0 < j) × (j < slots) × Lined xs.now }
        requires masked { Masked self.now.kept.codes.now self.now.kept.jobs.now self.now.kept.cells.now mask xs.now (part_at self.now.lines.now self.now.starts.now j) }
        ensures { result ≡ meetings (clashing self.now.kept.codes.now self.now.kept.jobs.now self.now.kept.cells.now) xs.now (part_at self.now.lines.now self.now.starts.now j) }
    {
        if apart(xs, self.part(j)) {
            return false;
        }
        let mut found = false;
        'outer: for i in (0..xs.len()).rev() {
            let x = usize::from(xs[i]);
            if !self.may_meet(mask, x, j) {
                continue;
            }
            for kind in 0..ANY {
                if self.meets_last(x, j, kind) {
                    found = true;
                    break 'outer;
                }
            }
        }
        found
    }

    // Whether job i has an edge to job j, both with a c.
    #[tactic(auto, using(crate::proofs::ByParts::edge_parts, crate::proofs::ByParts::edge_self, crate::proofs::ByParts::masked_apart))]
    pub fn edge_between(&self, i: usize, j: usize) -> bool
        requires { (0 < i) × (i < slots) × (0 < j) × (j < slots) }
        ensures { result ≡ edges_of self.now i j }
    {
        if i == j {
            return false;
        }
        let mask = meeting_cells(touched(self.sets, i), touched(self.sets, j));
        if mask == 0 {
            return false;
        }
        self.meets(mask, self.part(i), j)
    }
}
