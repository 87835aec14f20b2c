// The lock desk for a caller that keeps it: the desk's six fields are lent to each call, and changed where they stand (02, No. 7).
// The C interface keeps the six fields as six arguments, and numbers in the structs that come back.
ghost use Rattle.std.specs.Prelude.{◌≡◌, [], ◌∷◌, map, take};
ghost use Rattle.desks.specs.Told.{request};
ghost use Rattle.desk_rules.specs.AskedChain.{chain_numbers};
ghost use Rattle.desk_arrays.specs.Steps.{desk_of, start_of, wake_at};
ghost use Rattle.desk_chain.specs.Chains.{asked_on};
ghost use Rattle.tuyenlomac.specs.Desks.{start_number, start_leaves, kind_byte, lists_of, wakes_in};
ghost use Rattle.tuyenlomac.specs.Calls.{locks_call, OnLocks};

use crate::answers::{Answered, in_three};
use conflict::action::Kind;
use desk::step::step_on;
use desk::wakes::wake_at;
use desk_arrays::board::Waits;
use desk_arrays::state::{Desk, SPOTS};
use desk_chain::chain::chain;
use terms::letters::{INCREMENT, READ, WRITE};
use terms::limits::PLACES;
use terms::refusals::{Refusal, field_of};

// The answer to a question for a job's chain: 0 and how many jobs it has, or the refusal's number and 0.
#[repr(C)]
#[derive(Clone, Copy)]
pub struct ChainSaid {
    pub refusal: u32,
    pub jobs: usize,
}

// The byte of the letter that the history has for a woken job's action. It is no `From`: Rust takes an impl only in the crate of one of its types, and neither is of this one.
#[tactic(auto, unfolding(crate::specs::Desks::kind_byte, text_rules::specs::EventRecords::ask_by))]
fn kind_byte(k: Kind) -> u8
    ensures { result ≡ kind_byte k }
{
    match k {
        Kind::Read => READ,
        Kind::Write => WRITE,
        Kind::Increment => INCREMENT,
    }
}

// Writes the wakes of the places woken, this many, into the first places of three lists: the jobs, the cells, and what each does there.
#[tactic(auto, using(crate::proofs::Waking::wakes_all, crate::proofs::Waking::wakes_more, crate::proofs::Waking::wakes_none))]
fn tell_wakes(
    w: Waits,
    woken: &[u8; PLACES],
    count: usize,
    jobs: &mut [u32; PLACES],
    cells: &mut [u32; PLACES],
    kinds: &mut [u8; PLACES],
)
    ensures { lists_of jobs.new cells.new kinds.new ≡ wakes_in (map (wake_at w.entry.number.now w.entry.cell.now w.entry.ask.now) (take count woken.now)) (lists_of jobs.old cells.old kinds.old) }
{
    for i in 0..count.min(PLACES) {
        let a = wake_at(w, usize::from(woken[i]));
        jobs[i] = a.job;
        cells[i] = a.cell;
        kinds[i] = kind_byte(a.kind);
    }
}

// Starts a lock desk at a first number and answers 0. For number 0 the answer is refusal 10, and what is there stays (01, refusal 10).
#[tactic(auto, unfolding(crate::specs::Desks::start_leaves, crate::specs::Desks::start_number))]
pub fn tuyenlomac_locks_start_on(
    next: &mut u64,
    number: &mut [u32; PLACES],
    status: &mut [u8; PLACES],
    cell: &mut [u8; PLACES],
    ask: &mut [u8; PLACES],
    held: &mut [u8; SPOTS],
    first: u32,
) -> u32
    ensures refusal { result ≡ start_number (start_of first) }
    ensures desk { desk_of next.new number.new status.new cell.new ask.new held.new ≡ start_leaves (desk_of next.old number.old status.old cell.old ask.old held.old) (start_of first) }
{
    match Desk::start(first) {
        Ok(d) => {
            Desk {
                next: *next,
                number: *number,
                status: *status,
                cell: *cell,
                ask: *ask,
                held: *held,
            } = d;
            0
        }
        Err(why) => u32::from(u8::from(why)),
    }
}

// One request by the letter's byte, the job and the cell asked for. The jobs that it wakes are told in the first places of the three lists.
pub fn tuyenlomac_locks_step_on(
    next: &mut u64,
    number: &mut [u32; PLACES],
    status: &mut [u8; PLACES],
    cell: &mut [u8; PLACES],
    ask: &mut [u8; PLACES],
    held: &mut [u8; SPOTS],
    jobs: &mut [u32; PLACES],
    cells: &mut [u32; PLACES],
    kinds: &mut [u8; PLACES],
    kind: u8,
    job: u32,
    asked: u32,
) -> Answered
    ensures { OnLocks (desk_of next.old number.old status.old cell.old ask.old held.old) (request kind job asked) (locks_call (desk_of next.new number.new status.new cell.new ask.new held.new) (lists_of jobs.old cells.old kinds.old) (lists_of jobs.new cells.new kinds.new) result) }
{
    let mut woken = [0; PLACES];
    let t = step_on(
        next, number, status, cell, ask, held, &mut woken, kind, job, asked,
    );
    let w = Waits { number, cell, ask };
    tell_wakes(w, &woken, t.count, jobs, cells, kinds);
    in_three(t.answer, t.count)
}

// The answer to a question for a chain, in two numbers.
impl From<Result<usize, Refusal>> for ChainSaid {
    ghost from_gives = { λ c said. (said.refusal ∷ said.jobs ∷ []) ≡ chain_numbers c };

    #[tactic(auto, unfolding(desk_rules::specs::AskedChain::chain_numbers))]
    fn from(c: Result<usize, Refusal>) -> ChainSaid {
        match c {
            Ok(jobs) => ChainSaid { refusal: 0, jobs },
            Err(why) => ChainSaid {
                refusal: u32::from(u8::from(why)),
                jobs: usize::from(field_of(why)),
            },
        }
    }
}

// The chain of a job, in the first places of the list (02, No. 3). The desk is only read.
pub fn tuyenlomac_locks_chain_on(
    next: &u64,
    number: &[u32; PLACES],
    status: &[u8; PLACES],
    cell: &[u8; PLACES],
    ask: &[u8; PLACES],
    held: &[u8; SPOTS],
    job: u32,
    list: &mut [u32],
) -> ChainSaid
    ensures said { (result.refusal ∷ result.jobs ∷ []) ≡ chain_numbers (asked_on (desk_of next.now number.now status.now cell.now ask.now held.now) job list.old).said }
    ensures list { list.new ≡ (asked_on (desk_of next.now number.now status.now cell.now ask.now held.now) job list.old).list }
{
    let d = Desk {
        next: *next,
        number: *number,
        status: *status,
        cell: *cell,
        ask: *ask,
        held: *held,
    };
    ChainSaid::from(chain(d, job, list))
}
