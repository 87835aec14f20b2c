// What a step is to do, decided over lent arrays before anything changes (01, rules 1 to 3; 01, Refusals by number).
ghost use Rattle.std.specs.Prelude.{◌<◌, ◌≡◌, ◌&&◌, Some};
ghost use Rattle.desk_arrays.specs.Places.{mode_at, nobody_waits, agrees_at, older_at, oldest_of};
ghost use Rattle.desk_arrays.specs.Moves.{found_at, standing_of, begin_move, commit_move, give_up_move, retry_move, promotes, enters, decided, ask_move, move_for};
ghost use Rattle.terms.specs.Limits.{cells, places};

use crate::places::{
    agrees, goes_beside, mode_at, nobody_waits, older_than_holders, older_than_waiters,
};
use conflict::modes::{Mode, asked_mode, mode_covers, mode_is_free, needed_mode};
use desk_arrays::board::Board;
use desk_arrays::codes::{FREE, SENT_BACK, WAITING};
use desk_arrays::moves::{Ending, Found, Move};
use desks::finding::{Opening, opening_for, place_of};
use terms::letters::{Ask, Letter};
use terms::limits::{CELLS, PLACES};
use terms::refusals::Refusal;

// Where a job stands, and what the job is doing; nothing, for 0 and for a number at no place.
#[tactic(auto, unfolding(desk_arrays::specs::Moves::found_at, desk_arrays::specs::Moves::status_of))]
pub fn find(b: Board, job: u32) -> Found
    ensures found { result ≡ found_at b.entry.number.now b.entry.status.now job }
    ensures inside { 0 < result.code → result.place < places }
{
    let Board { number, status, .. } = b;
    let place = place_of(number, job);
    let code = if job == 0 {
        FREE
    } else {
        status.get(place).copied().unwrap_or(FREE)
    };
    Found { place, code }
}

// Whether a job runs: refusals 3, 4 and 5.
#[tactic(auto, unfolding(desk_arrays::specs::Moves::standing_of))]
fn standing_of(code: u8) -> Result<(), Refusal>
    ensures { result ≡ standing_of code }
{
    match code {
        FREE => Err(Refusal::NotOpen),
        WAITING => Err(Refusal::Waiting),
        SENT_BACK => Err(Refusal::SentBack),
        _ => Ok(()),
    }
}

// Rule 3, go: the queue is empty and the mode agrees with every holder.
fn may_take(b: Board, p: usize, c: usize, m: Mode) -> bool
    requires { c < cells }
    ensures { result ≡ (nobody_waits b.entry.status.now b.entry.cell.now c && agrees_at b.entry.held.now c p m) }
{
    nobody_waits(b, c) && goes_beside(b.held, c, p, m)
}

// Rule 3, wait: the job is older than every holder and every waiter.
fn may_wait(b: Board, p: usize, c: usize, job: u32) -> bool
    requires { c < cells }
    ensures { result ≡ (older_at b.entry.held.now b.entry.number.now c p job && oldest_of b.entry.number.now b.entry.status.now b.entry.cell.now c job) }
{
    older_than_holders(b, c, p, job) && older_than_waiters(b, c, job)
}

// Rule 3: a job new to the cell.
#[tactic(auto, using(crate::proofs::Decides::leaves, crate::proofs::Decides::takes, crate::proofs::Decides::waits))]
fn enter(b: Board, p: usize, c: usize, job: u32, a: Ask) -> Move
    requires { c < cells }
    ensures { result ≡ enters b.entry.number.now b.entry.status.now b.entry.cell.now b.entry.held.now p c job a }
{
    let need = needed_mode(a);
    if may_take(b, p, c, need) {
        return Move::Take(p, need);
    }
    if may_wait(b, p, c, job) {
        return Move::Stay(p, a);
    }
    Move::End(p, Ending::SentBack)
}

// Rule 2: a job that holds another mode goes if its new mode agrees with every other holder.
#[tactic(auto, using(crate::proofs::Decides::leaves_promoted, crate::proofs::Decides::promoted, crate::proofs::Decides::waits_promoted))]
fn promote(b: Board, p: usize, c: usize, job: u32, a: Ask, mine: Mode) -> Move
    requires { (c < cells) × (mine ≡ mode_at b.held.now c p) }
    ensures { result ≡ promotes b.entry.number.now b.entry.held.now p c job a }
{
    let wanted = asked_mode(mine, needed_mode(a));
    if agrees(b.held, c, p, wanted) {
        return Move::Take(p, wanted);
    }
    if older_than_holders(b, c, p, job) {
        return Move::Stay(p, a);
    }
    Move::End(p, Ending::SentBack)
}

// Rules 1 to 3: the decision on a request for a cell.
#[tactic(auto, using(crate::proofs::Decides::goes_in, crate::proofs::Decides::goes_up, crate::proofs::Decides::keeps))]
fn decide(b: Board, p: usize, c: usize, job: u32, a: Ask) -> Move
    requires { (p < places) × (c < cells) }
    ensures { result ≡ decided b.entry.number.now b.entry.status.now b.entry.cell.now b.entry.held.now p c job a }
{
    let mine = mode_at(b.held, c, p);
    if mode_covers(mine, needed_mode(a)) {
        return Move::Keep;
    }
    if mode_is_free(mine) {
        return enter(b, p, c, job, a);
    }
    promote(b, p, c, job, a, mine)
}

// Begin: refusal 7, then 6, else the next number at the first free place.
#[tactic(auto, unfolding(desk_arrays::specs::Moves::opened, desk_arrays::specs::Moves::begin_move))]
fn begin_move(next: u64, number: &[u32; PLACES]) -> Result<Move, Refusal>
    ensures { result ≡ begin_move next number.now }
{
    let Opening { place, number } = opening_for(next, number)?;
    Ok(Move::Begin(place, number))
}

// Commit: refusals 3, 4, 5, else the run ends.
#[tactic(auto, unfolding(desk_arrays::specs::Moves::if_runs, desk_arrays::specs::Moves::commit_move))]
fn commit_move(f: Found) -> Result<Move, Refusal>
    ensures { result ≡ commit_move f }
{
    standing_of(f.code)?;
    Ok(Move::End(f.place, Ending::Closed))
}

// Give-up: refusal 3, else the run ends.
#[tactic(auto, unfolding(desk_arrays::specs::Moves::give_up_move))]
fn give_up_move(f: Found) -> Result<Move, Refusal>
    ensures { result ≡ give_up_move f }
{
    if f.code == FREE {
        return Err(Refusal::NotOpen);
    }
    Ok(Move::End(f.place, Ending::Closed))
}

// Retry: refusals 3, 4, 8, else the job runs again.
#[tactic(auto, unfolding(desk_arrays::specs::Moves::retry_move))]
fn retry_move(f: Found) -> Result<Move, Refusal>
    ensures { result ≡ retry_move f }
{
    match f.code {
        FREE => Err(Refusal::NotOpen),
        WAITING => Err(Refusal::Waiting),
        SENT_BACK => Ok(Move::Retry),
        _ => Err(Refusal::Running),
    }
}

// Read, write, increment and u: refusals 3, 4, 5, 2, else what the rules decide.
#[tactic(auto, unfolding(desk_arrays::specs::Moves::if_runs, desk_arrays::specs::Moves::ask_move), using(crate::proofs::Open::runs_open))]
fn ask_move(b: Board, job: u32, c: u32, a: Ask) -> Result<Move, Refusal>
    ensures { result ≡ ask_move b.entry.number.now b.entry.status.now b.entry.cell.now b.entry.held.now job c a }
{
    let f = find(b, job);
    standing_of(f.code)?;
    if c < CELLS {
        return Ok(decide(b, f.place, c as usize, job, a));
    }
    Err(Refusal::CellAbove)
}

// The move of a request, by its letter, or why it is refused.
#[tactic(auto, unfolding(desk_arrays::specs::Moves::move_for))]
pub fn plan_for(next: u64, b: Board, letter: Letter, job: u32, c: u32) -> Result<Move, Refusal>
    ensures { result ≡ move_for next b.entry.number.now b.entry.status.now b.entry.cell.now b.entry.held.now job c (Some letter) }
{
    match letter {
        Letter::Back => Err(Refusal::UnknownKind),
        Letter::Begin => begin_move(next, b.number),
        Letter::Commit => commit_move(find(b, job)),
        Letter::GiveUp => give_up_move(find(b, job)),
        Letter::Retry => retry_move(find(b, job)),
        Letter::Asks(a) => ask_move(b, job, c, a),
    }
}
