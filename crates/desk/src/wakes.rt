// The wakes of a step as actions, read off the arrays: a woken place keeps its number and what it waited for (01, rule 4).
ghost use Rattle.std.specs.Prelude.{◌≡◌, map, take};
ghost use Rattle.desk_arrays.specs.Steps.{wake_at, listed};

use conflict::action::{Action, Kind};
use conflict::modes::recorded_kind;
use desk_arrays::board::Waits;
use desk_arrays::codes::ask_of;
use terms::limits::PLACES;

// The action of a woken place; the filler action, for an index that is no place.
#[tactic(auto, unfolding(desk_arrays::specs::Steps::wake_at), using(crate::proofs::Telling::nowhere_says))]
pub fn wake_at(w: Waits, p: usize) -> Action
    ensures { result ≡ wake_at w.entry.number.now w.entry.cell.now w.entry.ask.now p }
{
    let Waits { number, cell, ask } = w;
    let ask = ask.get(p).copied().unwrap_or(0);
    let cell = cell.get(p).copied().unwrap_or(0);
    Action {
        kind: recorded_kind(ask_of(ask)),
        job: number.get(p).copied().unwrap_or(0),
        cell: u32::from(cell),
    }
}

// The list of the wakes of the first `count` places of a list.
#[tactic(auto, unfolding(desk_arrays::specs::Steps::no_action, desk_arrays::specs::Steps::listed), using(crate::proofs::Telling::told_all, crate::proofs::Telling::told_end, crate::proofs::Telling::told_more))]
pub fn tell(w: Waits, woken: [u8; PLACES], count: usize) -> [Action; PLACES]
    ensures { result ≡ listed (map (wake_at w.entry.number.now w.entry.cell.now w.entry.ask.now) (take count woken)) }
{
    let mut wakes = [Action {
        kind: Kind::Read,
        job: 0,
        cell: 0,
    }; PLACES];
    for i in 0..count.min(PLACES) {
        wakes[i] = wake_at(w, usize::from(woken[i]));
    }
    wakes
}
