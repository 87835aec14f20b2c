// The chain of a job: the youngest job in its way, the youngest in that one's way, and so on to a running job (02, No. 3).
ghost use Rattle.std.specs.Prelude.{◌<◌, ◌≡◌, length, get_or};
ghost use Rattle.laws.specs.Lists.{filled};
ghost use Rattle.terms.specs.Limits.{cells, places};
ghost use Rattle.desk_rules.specs.Chain.{younger_than};
ghost use Rattle.desk_chain.specs.Chains.{holds_above, holder_above, next_at, chain_from, asked_on, waits_within, waiter_above, next_chain};

use conflict::modes::{Mode, mode_is_free};
use desk_arrays::board::Board;
use desk_arrays::codes::{FREE, SENT_BACK, WAITING};
use desk_arrays::state::{Desk, ROWS};
use desk_plan::plan::find;
use terms::limits::{LAST_NUMBER, PLACES};
use terms::refusals::Refusal;

// A number above every job's.
const ABOVE_ALL: u64 = LAST_NUMBER as u64 + 1;

// Whether the place holds the cell and its number is above `age`.
#[tactic(auto, unfolding(crate::specs::Chains::holds_above, desk_arrays::specs::Places::mode_at))]
fn holds_above(b: Board, c: usize, age: u32, q: usize) -> bool
    requires { (c < cells) × (q < places) }
    ensures { result ≡ holds_above b.entry.number.now b.entry.held.now c age q }
{
    if mode_is_free(Mode::from(b.held[c * PLACES + q])) {
        return false;
    }
    age < b.number[q]
}

// The place of the youngest holder of the cell that is younger than the job, or 32, as the definition has it; this leaves out the job's own hold.
#[tactic(auto, unfolding(crate::specs::Chains::holder_above))]
fn holder_above(b: Board, c: usize, job: u32) -> usize
    requires { c < cells }
    ensures { result ≡ holder_above b.entry.number.now b.entry.held.now c job places }
{
    let number = b.number;
    let mut best = PLACES;
    let mut age = number.get(best).copied().unwrap_or(job);
    for q in 0..PLACES {
        if holds_above(b, c, age, q) {
            best = q;
            age = number.get(q).copied().unwrap_or(job);
        }
    }
    best
}

// The place of the next job after the one at this place, or 32, as the definition has it, if that one does not wait for a cell from 0 to 63.
#[tactic(auto, unfolding(crate::specs::Chains::next_at))]
fn next_at(b: Board, p: usize) -> usize
    requires { p < places }
    ensures { result ≡ next_at b.entry.number.now b.entry.status.now b.entry.cell.now b.entry.held.now p }
{
    if b.status[p] != WAITING {
        return PLACES;
    }
    let c = usize::from(b.cell[p]);
    if c < ROWS {
        return holder_above(b, c, b.number[p]);
    }
    PLACES
}

// Puts the chain of the job at a place into the first places of the list, and tells how many jobs it has. It calls itself for the next job, over the later places.
// It ends because numbers rise along a chain, so each further look has fewer younger jobs left.
fn follow(b: Board, p: usize, list: &mut [u32]) -> usize
    requires p_lt_places { p < places }
    requires number_in_bounds { younger_than (get_or b.number.now p 0) b.number.now < length list.old }
    ensures { (result ≡ length (chain_from b.entry.number.now b.entry.status.now b.entry.cell.now b.entry.held.now p)) × (list.new ≡ filled (chain_from b.entry.number.now b.entry.status.now b.entry.cell.now b.entry.held.now p) list.old) }
{
    let number = b.number;
    list[0] = number[p];
    let q = next_at(b, p);
    if q < PLACES {
        return 1 + follow(b, q, &mut list[1..]);
    }
    1
}

// Asks for the chain of a job, with a lent list: refusal 3, then 5, then 18, with the list unchanged;
// else the chain stands in the list's first places, the answer is how many jobs it has, and the unused places stay.
#[tactic(auto, using(crate::proofs::Answering::asked_closed, crate::proofs::Answering::asked_sent_back, crate::proofs::Answering::asked_short, crate::proofs::Answering::open_place, crate::proofs::Looks::places_enough))]
pub fn chain(d: Desk, job: u32, list: &mut [u32]) -> Result<usize, Refusal>
    ensures { (result ≡ (asked_on d job list.old).said) × (list.new ≡ (asked_on d job list.old).list) }
{
    let b = Board {
        number: &d.number,
        status: &d.status,
        cell: &d.cell,
        ask: &d.ask,
        held: &d.held,
    };
    let f = find(b, job);
    if f.code == FREE {
        return Err(Refusal::NotOpen);
    }
    if f.code == SENT_BACK {
        return Err(Refusal::SentBack);
    }
    if list.len() < PLACES {
        return Err(Refusal::ShortList);
    }
    Ok(follow(b, f.place, list))
}

// Whether the place waits and its number is above `last` and below `least`.
#[tactic(auto, unfolding(crate::specs::Chains::waits_within))]
fn waits_within(b: Board, last: u32, least: u64, q: usize) -> bool
    requires { q < places }
    ensures { result ≡ waits_within b.entry.number.now b.entry.status.now last least q }
{
    let job = b.number[q];
    if b.status[q] != WAITING {
        return false;
    }
    if last < job {
        return u64::from(job) < least;
    }
    false
}

// The place of the waiter with the smallest number above `last`, or 32, as the definition has it.
#[tactic(auto, unfolding(crate::specs::Chains::waiter_above))]
fn waiter_above(b: Board, last: u32) -> usize
    ensures { result ≡ waiter_above b.entry.number.now b.entry.status.now last places }
{
    let number = b.number;
    let mut best = PLACES;
    let mut least = number.get(best).copied().map_or(ABOVE_ALL, u64::from);
    for q in 0..PLACES {
        if waits_within(b, last, least, q) {
            best = q;
            least = number.get(q).copied().map_or(ABOVE_ALL, u64::from);
        }
    }
    best
}

// Puts the chain of the first waiting job with a number above `last` into the first places of the list; tells how many jobs it has: no chain is empty, so 0 says that no such job waits.
// Start with 0 and go on with the first job of the last chain told: this gives the chains of all waiting jobs, in ascending order.
#[tactic(auto, using(crate::proofs::Looks::places_enough))]
pub fn next_chain(d: Desk, last: u32, list: &mut [u32; PLACES]) -> usize
    ensures { (result ≡ length (next_chain d last)) × (list.new ≡ filled (next_chain d last) list.old) }
{
    let b = Board {
        number: &d.number,
        status: &d.status,
        cell: &d.cell,
        ask: &d.ask,
        held: &d.held,
    };
    let p = waiter_above(b, last);
    if p < PLACES {
        return follow(b, p, list);
    }
    0
}
