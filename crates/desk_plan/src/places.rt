// Tests over the places of the desk: who holds a cell, who is older, who waits (01, rules 2 to 4).
ghost use Rattle.std.specs.Prelude.{◌<◌, ◌≡◌, ◌||◌, eqb, ltb, get_or};
ghost use Rattle.conflict.specs.Modes.{grants, is_free};
ghost use Rattle.desk_plan.specs.Grants.{none_holds};
ghost use Rattle.desk_arrays.specs.Places.{mode_at, agrees_at, older_at, waits_at, nobody_waits, oldest_of, youngest};
ghost use Rattle.terms.specs.Limits.{cells, places};

use conflict::modes::{Mode, NOTHING, mode_grants, mode_is_free};
use desk_arrays::board::Board;
use desk_arrays::codes::WAITING;
use desk_arrays::state::SPOTS;
use terms::limits::PLACES;

// The mode that a place holds on a cell.
#[tactic(auto, unfolding(desk_arrays::specs::Places::mode_at))]
pub fn mode_at(held: &[u8; SPOTS], c: usize, p: usize) -> Mode
    requires { (c < cells) × (p < places) }
    ensures { result ≡ mode_at held.now c p }
{
    Mode::from(held[c * PLACES + p])
}

// True if the place is the job's own, or its held mode lets the mode be granted.
fn grants_at(held: &[u8; SPOTS], c: usize, p: usize, m: Mode, q: usize) -> bool
    requires { (c < cells) × (q < places) }
    ensures { result ≡ (eqb q p || grants (mode_at held.now c q) m) }
{
    q == p || mode_grants(mode_at(held, c, q), m)
}

// Whether the mode agrees with what every other place holds on the cell.
// A loop, where the tests below are made by `all`: of a closure that holds a mode the check does not prove what `all` returns.
#[tactic(auto, unfolding(desk_arrays::specs::Places::agrees_at), using(crate::proofs::Every::all_more, crate::proofs::Every::all_none))]
pub fn agrees(held: &[u8; SPOTS], c: usize, p: usize, m: Mode) -> bool
    requires { c < cells }
    ensures { result ≡ agrees_at held.now c p m }
{
    for q in 0..PLACES {
        if !grants_at(held, c, p, m, q) {
            return false;
        }
    }
    true
}

// Whether nobody holds the cell: every mode in its row is "none". The loop has no early exit, so that it is vectorized.
#[tactic(auto, unfolding(crate::specs::Grants::none_holds), using(crate::proofs::Every::all_failed, crate::proofs::Every::all_kept, crate::proofs::Every::all_none))]
fn none_holds(held: &[u8; SPOTS], c: usize) -> bool
    requires { c < cells }
    ensures { result ≡ none_holds held.now c }
{
    let mut none = true;
    for q in 0..PLACES {
        if held[c * PLACES + q] != NOTHING {
            none = false;
        }
    }
    none
}

// The same, faster: mostly nobody holds the cell, and one look over its row shows it.
#[tactic(auto, using(crate::proofs::Unheld::unheld_agrees))]
pub fn goes_beside(held: &[u8; SPOTS], c: usize, p: usize, m: Mode) -> bool
    requires { c < cells }
    ensures { result ≡ agrees_at held.now c p m }
{
    none_holds(held, c) || agrees(held, c, p, m)
}

// True if the place is the job's own, holds nothing on the cell, or its job is younger.
fn older_at(b: Board, c: usize, p: usize, job: u32, q: usize) -> bool
    requires { (c < cells) × (q < places) }
    ensures { result ≡ (eqb q p || (is_free (mode_at b.entry.held.now c q) || ltb job (get_or b.entry.number.now q 0))) }
{
    q == p || mode_is_free(mode_at(b.held, c, q)) || job < b.number[q]
}

// Whether the job at place p is older than every other holder of the cell.
pub fn older_than_holders(b: Board, c: usize, p: usize, job: u32) -> bool
    requires { c < cells }
    ensures { result ≡ older_at b.entry.held.now b.entry.number.now c p job }
{
    (0..PLACES).all(|q| older_at(b, c, p, job, q))
}

// Whether the place waits for the cell; the cell is tested first, since few places have it.
#[tactic(auto, unfolding(desk_arrays::specs::Places::waits_at))]
pub fn waits_for(b: Board, c: usize, q: usize) -> bool
    requires { q < places }
    ensures { result ≡ waits_at b.entry.status.now b.entry.cell.now c q }
{
    usize::from(b.cell[q]) == c && b.status[q] == WAITING
}

// Whether nobody waits for the cell. The loop has no early exit, so that it is vectorized.
#[tactic(auto, unfolding(desk_arrays::specs::Places::nobody_waits), using(crate::proofs::Every::all_failed, crate::proofs::Every::all_kept, crate::proofs::Every::all_none))]
pub fn nobody_waits(b: Board, c: usize) -> bool
    ensures { result ≡ nobody_waits b.entry.status.now b.entry.cell.now c }
{
    let mut nobody = true;
    for q in 0..PLACES {
        if waits_for(b, c, q) {
            nobody = false;
        }
    }
    nobody
}

// Whether the job is older than every waiter of the cell.
pub fn older_than_waiters(b: Board, c: usize, job: u32) -> bool
    ensures { result ≡ oldest_of b.entry.number.now b.entry.status.now b.entry.cell.now c job }
{
    (0..PLACES).all(|q| !waits_for(b, c, q) || job < b.number[q])
}

// The number of the job at a place; 0, for no place.
fn number_at(number: &[u32; PLACES], p: usize) -> u32
    ensures { result ≡ get_or number.now p 0 }
{
    number.get(p).copied().unwrap_or(0)
}

// The place of the youngest job waiting for the cell (the front of its queue), or 32, as the definition `youngest` has it.
// The number of the best place so far stands in a variable: to read it anew at each waiter made a step slower by a twentieth.
#[tactic(auto, unfolding(desk_arrays::specs::Places::youngest))]
pub fn front_of(b: Board, c: usize) -> usize
    ensures { result ≡ youngest b.entry.number.now b.entry.status.now b.entry.cell.now c places }
{
    let mut best = PLACES;
    let mut age = number_at(b.number, best);
    for q in 0..PLACES {
        if waits_for(b, c, q) && age < b.number[q] {
            best = q;
            age = b.number[q];
        }
    }
    best
}
