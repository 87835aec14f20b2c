// Rule 4 over the arrays: a job's locks are dropped, and waiters are granted from the front of each queue (01, rule 4).
ghost use Rattle.std.specs.Prelude.{◌+◌, ◌≤◌, ◌<◌, ◌≡◌, [], length, take};
ghost use Rattle.desk_arrays.specs.Places.{waiters};
ghost use Rattle.desk_arrays.specs.Settling.{dropped_by, settle_cell, settle_all};
ghost use Rattle.desk_arrays.specs.Steps.{desk_of, code_after, settled};
ghost use Rattle.desk.specs.InPlace.{Reached};
ghost use Rattle.terms.specs.Limits.{cells, places};

use conflict::modes::NOTHING;
use desk_arrays::board::{Board, Waits};
use desk_arrays::codes::{FREE, RUNNING, SENT_BACK};
use desk_arrays::moves::Ending;
use desk_arrays::state::{ROWS, SPOTS};
use desk_plan::grants::{front_grant, none_waits, wanted_cells};
use terms::limits::PLACES;

// A place drops all its locks.
#[tactic(auto, unfolding(desk_arrays::specs::Settling::dropped_by))]
fn drop_locks(held: &mut [u8; SPOTS], p: usize)
    requires { p < places }
    ensures { held.new ≡ dropped_by held.old p cells }
{
    for c in 0..ROWS {
        held[c * PLACES + p] = NOTHING;
    }
}

// Grants waiters of one cell from the front, while each agrees with the other holders; `count` were woken before.
#[tactic(auto, unfolding(desk_arrays::specs::Settling::settle_cell, laws::specs::Lists::filled), using(crate::proofs::Cells::reached_as))]
fn settle_cell(
    held: &mut [u8; SPOTS],
    status: &mut [u8; PLACES],
    woken: &mut [u8; PLACES],
    w: Waits,
    count: usize,
    c: usize,
) -> usize
    requires { (c < cells) × (count + waiters status.old places ≤ places) }
    ensures { Reached (settle_cell w.entry.number.now w.entry.cell.now w.entry.ask.now c places (record { held = held.old; status = status.old; woken = take count woken.old })) woken.old held.new status.new woken.new result }
{
    let mut k = count;
    for _ in 0..PLACES {
        let b = Board {
            number: w.number,
            status,
            cell: w.cell,
            ask: w.ask,
            held,
        };
        let Some((p, m)) = front_grant(b, c) else {
            return k;
        };
        held[c * PLACES + p] = u8::from(m);
        status[p] = RUNNING;
        woken[k] = p as u8;
        k += 1;
    }
    k
}

// The same for every cell from 0 to 63; a cell without waiters is skipped.
#[tactic(auto, unfolding(desk_arrays::specs::Settling::settle_all, laws::specs::Lists::filled), using(crate::proofs::Cells::reached_as))]
fn settle_all(
    held: &mut [u8; SPOTS],
    status: &mut [u8; PLACES],
    woken: &mut [u8; PLACES],
    w: Waits,
) -> usize
    ensures { Reached (settle_all w.entry.number.now w.entry.cell.now w.entry.ask.now cells (record { held = held.old; status = status.old; woken = [] })) woken.old held.new status.new woken.new result }
{
    let cells = wanted_cells(status, w.cell);
    let mut k = 0;
    for (c, wanted) in cells.iter().enumerate() {
        if *wanted {
            k = settle_cell(held, status, woken, w, k, c);
        }
    }
    k
}

// Rule 4, after the locks were dropped. Mostly nobody waits: one look over the places shows it, and then nothing changes.
#[tactic(auto, unfolding(laws::specs::Lists::filled), using(crate::proofs::Cells::none_settled, crate::proofs::Cells::reached_as))]
fn settle(
    held: &mut [u8; SPOTS],
    status: &mut [u8; PLACES],
    woken: &mut [u8; PLACES],
    w: Waits,
) -> usize
    ensures { Reached (settle_all w.entry.number.now w.entry.cell.now w.entry.ask.now cells (record { held = held.old; status = status.old; woken = [] })) woken.old held.new status.new woken.new result }
{
    if none_waits(status) {
        return 0;
    }
    settle_all(held, status, woken, w)
}

// The status code of a place after its run has ended: free, or sent back.
#[tactic(auto, unfolding(desk_arrays::specs::Steps::code_after))]
fn code_after(e: Ending) -> u8
    ensures { result ≡ code_after e }
{
    match e {
        Ending::Closed => FREE,
        Ending::SentBack => SENT_BACK,
    }
}

// Ends the run at a place: drops its locks and settles the cells, in place; tells how many were woken.
#[tactic(auto, unfolding(desk_arrays::specs::Steps::settled))]
pub fn end_run(
    held: &mut [u8; SPOTS],
    status: &mut [u8; PLACES],
    woken: &mut [u8; PLACES],
    w: Waits,
    p: usize,
    e: Ending,
) -> usize
    requires { p < places }
    ensures { Reached (settled (desk_of 0 w.entry.number.now status.old w.entry.cell.now w.entry.ask.now held.old) p (code_after e)) woken.old held.new status.new woken.new result }
{
    status[p] = code_after(e);
    drop_locks(held, p);
    settle(held, status, woken, w)
}
