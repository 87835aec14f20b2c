// The lock desk lent to each call, for C: each export calls the function of the same name in `tuyenlomac::locks`, and promises what it promises (02, No. 7).
ghost use Rattle.std.specs.Prelude.{◌≡◌, [], ◌∷◌};
ghost use Rattle.desks.specs.Told.{request};
ghost use Rattle.desk_rules.specs.AskedChain.{chain_numbers};
ghost use Rattle.desk_arrays.specs.Steps.{desk_of, start_of};
ghost use Rattle.desk_chain.specs.Chains.{asked_on};
ghost use Rattle.tuyenlomac.specs.Desks.{start_number, start_leaves, lists_of};
ghost use Rattle.tuyenlomac.specs.Calls.{locks_call, OnLocks};

use desk_arrays::state::SPOTS;
use terms::limits::PLACES;
use tuyenlomac::answers::Answered;
use tuyenlomac::locks::ChainSaid;

// Starts a lock desk at a first number and answers 0. For number 0 the answer is refusal 10, and what is there stays (01, refusal 10).
#[unsafe(no_mangle)]
pub extern "C" fn tuyenlomac_locks_start_on(
    next: &mut u64,
    number: &mut [u32; PLACES],
    status: &mut [u8; PLACES],
    cell: &mut [u8; PLACES],
    ask: &mut [u8; PLACES],
    held: &mut [u8; SPOTS],
    first: u32,
) -> u32
    ensures refusal { result ≡ start_number (start_of first) }
    ensures desk { desk_of next.new number.new status.new cell.new ask.new held.new ≡ start_leaves (desk_of next.old number.old status.old cell.old ask.old held.old) (start_of first) }
{
    tuyenlomac::locks::tuyenlomac_locks_start_on(next, number, status, cell, ask, held, first)
}

// One request by the letter's byte, the job and the cell asked for. The jobs that it wakes are told in the first places of the three lists.
#[unsafe(no_mangle)]
pub extern "C" fn tuyenlomac_locks_step_on(
    next: &mut u64,
    number: &mut [u32; PLACES],
    status: &mut [u8; PLACES],
    cell: &mut [u8; PLACES],
    ask: &mut [u8; PLACES],
    held: &mut [u8; SPOTS],
    jobs: &mut [u32; PLACES],
    cells: &mut [u32; PLACES],
    kinds: &mut [u8; PLACES],
    kind: u8,
    job: u32,
    asked: u32,
) -> Answered
    ensures { OnLocks (desk_of next.old number.old status.old cell.old ask.old held.old) (request kind job asked) (locks_call (desk_of next.new number.new status.new cell.new ask.new held.new) (lists_of jobs.old cells.old kinds.old) (lists_of jobs.new cells.new kinds.new) result) }
{
    tuyenlomac::locks::tuyenlomac_locks_step_on(
        next, number, status, cell, ask, held, jobs, cells, kinds, kind, job, asked,
    )
}

// The chain of a job, in the first places of the list (02, No. 3). The desk is only read.
#[unsafe(no_mangle)]
pub extern "C" fn tuyenlomac_locks_chain_on(
    next: &u64,
    number: &[u32; PLACES],
    status: &[u8; PLACES],
    cell: &[u8; PLACES],
    ask: &[u8; PLACES],
    held: &[u8; SPOTS],
    job: u32,
    list: &mut [u32],
) -> ChainSaid
    ensures said { (result.refusal ∷ result.jobs ∷ []) ≡ chain_numbers (asked_on (desk_of next.now number.now status.now cell.now ask.now held.now) job list.old).said }
    ensures list { list.new ≡ (asked_on (desk_of next.now number.now status.now cell.now ask.now held.now) job list.old).list }
{
    tuyenlomac::locks::tuyenlomac_locks_chain_on(next, number, status, cell, ask, held, job, list)
}
