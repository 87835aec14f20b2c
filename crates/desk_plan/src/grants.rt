// What rule 4 has to find out: the cells with waiters, and the next grant on a cell (01, rule 4).
ghost use Rattle.std.specs.Prelude.{◌<◌, ◌≡◌};
ghost use Rattle.desk_arrays.specs.Places.{wants_at};
ghost use Rattle.desk_plan.specs.Grants.{none_waits, wanted, next_grant};
ghost use Rattle.terms.specs.Limits.{cells, places};

use crate::places::{agrees, front_of, mode_at};
use conflict::modes::{Mode, asked_mode, needed_mode};
use desk_arrays::board::Board;
use desk_arrays::codes::{WAITING, ask_of};
use desk_arrays::state::{ROWS, SPOTS};
use terms::letters::Ask;
use terms::limits::PLACES;

// Whether nobody waits for any cell. The loop has no early exit, so that it is vectorized.
#[tactic(auto, unfolding(crate::specs::Grants::none_waits), using(crate::proofs::Every::all_failed, crate::proofs::Every::all_kept, crate::proofs::Every::all_none))]
pub fn none_waits(status: &[u8; PLACES]) -> bool
    ensures { result ≡ none_waits status.now }
{
    let mut none = true;
    for code in status {
        if *code == WAITING {
            none = false;
        }
    }
    none
}

// The cells with waiters.
#[tactic(auto, unfolding(crate::specs::Grants::wanted), using(crate::proofs::Wanted::wanted_outside))]
pub fn wanted_cells(status: &[u8; PLACES], cell: &[u8; PLACES]) -> [bool; ROWS]
    ensures { result ≡ wanted status.now cell.now places }
{
    let mut cells = [false; ROWS];
    for q in 0..PLACES {
        if status[q] == WAITING {
            let c = usize::from(cell[q]);
            if c < ROWS {
                cells[c] = true;
            }
        }
    }
    cells
}

// The mode that a place asks for on a cell.
#[tactic(auto, unfolding(desk_arrays::specs::Places::wants_at))]
fn wanted_mode(held: &[u8; SPOTS], c: usize, p: usize, a: Ask) -> Mode
    requires { (c < cells) × (p < places) }
    ensures { result ≡ wants_at held.now c p a }
{
    asked_mode(mode_at(held, c, p), needed_mode(a))
}

// The front of a cell's queue, if its mode agrees with the other holders; nobody, if there is no such cell.
#[tactic(auto, using(crate::proofs::Granting::granted_front, crate::proofs::Granting::no_cell, crate::proofs::Granting::no_front, crate::proofs::Granting::not_agreed))]
pub fn front_grant(b: Board, c: usize) -> Option<(usize, Mode)>
    ensures { result ≡ next_grant b.entry.number.now b.entry.status.now b.entry.cell.now b.entry.ask.now b.entry.held.now c }
{
    if ROWS <= c {
        return None;
    }
    let p = front_of(b, c);
    if PLACES <= p {
        return None;
    }
    let m = wanted_mode(b.held, c, p, ask_of(b.ask[p]));
    if agrees(b.held, c, p, m) {
        return Some((p, m));
    }
    None
}
