// The order: the smallest remaining job without a remaining predecessor is taken away, again and again (01, The judge's rules: Orderly).
ghost use Rattle.std.specs.Prelude.{◌≡◌, true, false, ◌<◌, length, get_or, take, IfNone};
ghost use Rattle.std.specs.List.{position};
ghost use Rattle.judge_rules.specs.Order.{ready, order_of, stuck};
ghost use Rattle.judge_core.specs.Edges.{edges_of};
ghost use Rattle.judge_core.specs.Left.{left_of};
ghost use Rattle.judge_core.specs.Preceding.{predecessor_from, Preceding, Known};
ghost use Rattle.judge_core.specs.Sizes.{slots};

use crate::edges::Graph;
use crate::sizes::SLOTS;

// No job: one above the largest. In a table of predecessors a job's next search begins at its entry, and from here on there is nothing to search.
pub const NOBODY: usize = SLOTS;

// What is left when no remaining job is ready, the jobs taken away before in order, and the smallest remaining predecessor of each remaining job.
#[derive(Drop)]
pub struct Taken {
    pub left: [bool; SLOTS],
    pub placed: [u8; SLOTS],
    pub count: usize,
    pub predecessors: [usize; SLOTS],
}

// The smallest remaining job at or above `from` that has an edge to job j. If `from` itself remains, it is known to have an edge, and nothing is searched.
#[tactic(auto, unfolding(crate::specs::Preceding::predecessor_from), using(crate::proofs::Seeking::seek_found, crate::proofs::Seeking::seek_gone, crate::proofs::Seeking::seek_none, crate::proofs::Seeking::seek_past))]
fn predecessor_from(graph: &Graph, left: &[bool; SLOTS], from: usize, j: usize) -> usize
    requires j_nonzero { (0 < j) × (j < slots) }
    requires false_value { (get_or left.now 0 false ≡ false) × (from < slots → get_or left.now from false ≡ true → edges_of graph.now from j ≡ true) }
    ensures { result ≡ predecessor_from (edges_of graph.now) left.now from j }
{
    if from < SLOTS && left[from] {
        return from;
    }
    for i in from..SLOTS {
        if left[i] && graph.edge_between(i, j) {
            return i;
        }
    }
    NOBODY
}

// The smallest remaining job without a remaining predecessor. A job whose smallest predecessor is gone searches on from there: smaller jobs are gone too, or have no edge to it.
// So no pair of jobs is searched twice.
#[tactic(auto, using(crate::proofs::Predecessors::passed_all, crate::proofs::Predecessors::passed_none, crate::proofs::Predecessors::passed_ready))]
fn ready_job(
    graph: &Graph,
    left: &[bool; SLOTS],
    predecessors: &mut [usize; SLOTS],
) -> Option<usize>
    requires { (get_or left.now 0 false ≡ false) × Preceding (edges_of graph.now) left.now predecessors.old }
    ensures value { result ≡ ready (edges_of graph.now) (left_of left.now) }
    ensures preceding { Preceding (edges_of graph.now) left.now predecessors.new }
    ensures known { IfNone result (Known (edges_of graph.now) left.now predecessors.new slots) }
{
    for j in 0..SLOTS {
        if left[j] {
            let i = predecessor_from(graph, left, predecessors[j], j);
            predecessors[j] = i;
            if i == NOBODY {
                return Some(j);
            }
        }
    }
    None
}

// Takes away remaining jobs while one is ready, and puts them in order; tells how many. At the end the smallest predecessor of each remaining job is known.
#[tactic(auto, using(crate::proofs::TakingAway::going_count, crate::proofs::TakingAway::going_fewer, crate::proofs::TakingAway::going_fits, crate::proofs::TakingAway::going_order, crate::proofs::TakingAway::going_rest))]
pub fn take_away(graph: &Graph, jobs: [bool; SLOTS]) -> Taken
    requires { get_or jobs 0 false ≡ false }
    ensures left_after { left_of result.left ≡ stuck (edges_of graph.now) (left_of jobs) }
    ensures placed_after { (take result.count result.placed ≡ order_of (edges_of graph.now) (left_of jobs)) × (result.count ≡ length (order_of (edges_of graph.now) (left_of jobs))) }
    ensures known { Known (edges_of graph.now) result.left result.predecessors slots }
{
    let mut taken = Taken {
        left: jobs,
        placed: [0; SLOTS],
        count: 0,
        predecessors: [0; SLOTS],
    };
    while let Some(j) = ready_job(graph, &taken.left, &mut taken.predecessors) {
        taken.placed[taken.count] = j as u8;
        taken.left[j] = false;
        taken.count += 1;
    }
    taken
}

// The smallest remaining job.
pub fn smallest_left(left: &[bool; SLOTS]) -> Option<usize>
    ensures { result ≡ position (λ l. l) left.now }
{
    left.iter().position(|l| *l)
}
