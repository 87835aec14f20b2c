// One step of the desk: carries out the plan on the desk, in place (01, The desk's rules).
ghost use Rattle.std.specs.Prelude.{◌<◌, ◌≡◌};
ghost use Rattle.terms.specs.Letters.{byte_of};
ghost use Rattle.desk_arrays.specs.Steps.{desk_of, retried_job, numbers_after, answer_after, answer_to, step_of};
ghost use Rattle.desk.specs.InPlace.{StepsTo};
ghost use Rattle.terms.specs.Limits.{places};

use crate::settling::end_run;
use crate::wakes::tell;
use desk_arrays::board::{Board, Waits};
use desk_arrays::codes::{RUNNING, WAITING, ask_code};
use desk_arrays::moves::{Ending, Move};
use desk_arrays::state::{Desk, Outcome, SPOTS, Said, Told};
use desk_plan::plan::plan_for;
use desks::Answer;
use terms::letters::{Letter, letter_of};
use terms::limits::PLACES;
use terms::refusals::Refusal;

// The answer that tells how a run has ended.
#[tactic(auto, unfolding(desk_arrays::specs::Steps::answer_after))]
fn answer_after(e: Ending, job: u32) -> Answer
    ensures { result ≡ answer_after e job }
{
    match e {
        Ending::Closed => Answer::Go(job),
        Ending::SentBack => Answer::Back(job),
    }
}

// The answer that goes with a move.
#[tactic(auto, unfolding(desk_arrays::specs::Steps::answer_to))]
fn answer_to(m: Move, job: u32) -> Answer
    ensures { result ≡ answer_to (Ok m) job }
{
    match m {
        Move::Begin(_, n) => Answer::Go(n),
        Move::Stay(_, _) => Answer::Wait(job),
        Move::End(_, e) => answer_after(e, job),
        Move::Keep | Move::Take(_, _) | Move::Retry => Answer::Go(job),
    }
}

// A closed job frees its place; a sent back job keeps it.
#[tactic(auto, unfolding(desk_arrays::specs::Steps::numbers_after))]
fn leave_place(number: &mut [u32; PLACES], p: usize, e: Ending)
    requires { p < places }
    ensures { number.new ≡ numbers_after e number.old p }
{
    match e {
        Ending::Closed => {
            number[p] = 0;
        }
        Ending::SentBack => {}
    }
}

// What the places are doing after a retry, by the desk's own method: 01 names that form for it (a method that takes the desk by value and returns it).
fn status_retried(d: Desk, job: u32) -> [u8; PLACES]
    ensures { result ≡ (retried_job d job).status }
{
    d.retry(job).status
}

// One step by letter, job and cell, on the desk's fields, each lent and changed in place: a caller in C lends the six fields,
// and to copy them into a whole desk and out again would cost more than the step.
// The woken places go into the first places of a lent list, and the result tells how many there are.
#[tactic(auto, using(crate::proofs::Performed::begin_place, crate::proofs::Performed::end_place, crate::proofs::Performed::stay_spot, crate::proofs::Performed::take_spot))]
pub fn step_for(
    next: &mut u64,
    number: &mut [u32; PLACES],
    status: &mut [u8; PLACES],
    at: &mut [u8; PLACES],
    ask: &mut [u8; PLACES],
    held: &mut [u8; SPOTS],
    woken: &mut [u8; PLACES],
    letter: Letter,
    job: u32,
    cell: u32,
) -> Told
    ensures { StepsTo (desk_of next.old number.old status.old at.old ask.old held.old) woken.old (byte_of letter) job cell (desk_of next.new number.new status.new at.new ask.new held.new) woken.new result }
{
    let b = Board {
        number,
        status,
        cell: at,
        ask,
        held,
    };
    let m = match plan_for(*next, b, letter, job, cell) {
        Ok(m) => m,
        Err(why) => {
            return Told {
                answer: Answer::No(why),
                count: 0,
            };
        }
    };
    let answer = answer_to(m, job);
    let quiet = Told { answer, count: 0 };
    match m {
        Move::Keep => quiet,
        Move::Begin(p, new) => {
            *next = u64::from(new) + 1;
            number[p] = new;
            status[p] = RUNNING;
            quiet
        }
        Move::Take(p, mode) => {
            held[cell as usize * PLACES + p] = u8::from(mode);
            quiet
        }
        Move::Stay(p, a) => {
            status[p] = WAITING;
            at[p] = cell as u8;
            ask[p] = ask_code(a);
            quiet
        }
        Move::End(p, e) => {
            let w = Waits {
                number,
                cell: at,
                ask,
            };
            let count = end_run(held, status, woken, w, p, e);
            leave_place(number, p, e);
            Told { answer, count }
        }
        Move::Retry => {
            let d = Desk {
                next: *next,
                number: *number,
                status: *status,
                cell: *at,
                ask: *ask,
                held: *held,
            };
            *status = status_retried(d, job);
            quiet
        }
    }
}

// The same by a byte; a byte of no letter is refused.
#[tactic(auto, using(crate::proofs::Performed::by_letter))]
pub fn step_on(
    next: &mut u64,
    number: &mut [u32; PLACES],
    status: &mut [u8; PLACES],
    at: &mut [u8; PLACES],
    ask: &mut [u8; PLACES],
    held: &mut [u8; SPOTS],
    woken: &mut [u8; PLACES],
    kind: u8,
    job: u32,
    cell: u32,
) -> Told
    ensures { StepsTo (desk_of next.old number.old status.old at.old ask.old held.old) woken.old kind job cell (desk_of next.new number.new status.new at.new ask.new held.new) woken.new result }
{
    match letter_of(kind) {
        None => Told {
            answer: Answer::No(Refusal::UnknownKind),
            count: 0,
        },
        Some(l) => { step_for(next, number, status, at, ask, held, woken, l, job, cell) }
    }
}

// The same on a whole desk, in place.
pub fn step_in(d: &mut Desk, woken: &mut [u8; PLACES], letter: Letter, job: u32, cell: u32) -> Told
    ensures { StepsTo d.old woken.old (byte_of letter) job cell d.new woken.new result }
{
    let Desk {
        next,
        number,
        status,
        cell: at,
        ask,
        held,
    } = d;
    step_for(
        next, number, status, at, ask, held, woken, letter, job, cell,
    )
}

// The same by value: takes the desk, and returns the new desk with what was said.
#[tactic(auto, using(crate::proofs::Telling::step_whole))]
pub fn step(mut d: Desk, kind: u8, job: u32, cell: u32) -> Outcome
    ensures { result ≡ step_of d kind job cell }
{
    let mut woken = [0; PLACES];
    let t = step_on(
        &mut d.next,
        &mut d.number,
        &mut d.status,
        &mut d.cell,
        &mut d.ask,
        &mut d.held,
        &mut woken,
        kind,
        job,
        cell,
    );
    let w = Waits {
        number: &d.number,
        cell: &d.cell,
        ask: &d.ask,
    };
    let said = Said {
        answer: t.answer,
        wakes: tell(w, woken, t.count),
        count: t.count,
    };
    Outcome { desk: d, said }
}
