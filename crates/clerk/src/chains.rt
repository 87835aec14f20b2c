// What is written after the last line has been answered: the chains of the waiting jobs, one line each (02, No. 3).
ghost use Rattle.std.specs.Prelude.{◌≡◌, ◌+◌, ◌*◌, ◌≤◌, ◌<◌, length};
ghost use Rattle.text_rules.specs.Records.{jobs_line};
ghost use Rattle.text_rules.specs.Wrote.{Wrote};
ghost use Rattle.desk_chain.specs.Chains.{chains_on};
ghost use Rattle.program_rules.specs.Chains.{chain_text};
ghost use Rattle.program_rules.specs.Closing.{job_room, chains_room, chains_by, closing_room, close_of};
ghost use Rattle.clerk.specs.Parts.{Added};

use desk_arrays::state::Desk;
use desk_chain::chain::next_chain;
use program_rules::{Clerk, Desks, Finished, Method, View};
use terms::limits::PLACES;
use text::writer::{has_room, write_end, write_field, write_number};

// The most bytes that a job takes in a chain: ten digits, and the tab or the newline behind them.
const JOB_ROOM: usize = 11;
// The most bytes of all chains: at most as many jobs wait as there are places, and no chain has more jobs than that.
const CHAINS_ROOM: usize = PLACES * PLACES * JOB_ROOM;

// Writes the line of a chain, which fits; returns the place after it.
fn put_chain(out: &mut [u8], at: usize, jobs: &[u32]) -> usize
    requires { (0 < length jobs.now) × (at + job_room * length jobs.now ≤ length out.old) }
    ensures { Added (job_room * length jobs.now) at result (jobs_line jobs.now) out.old out.new }
{
    let mut next = write_number(out, at, u64::from(jobs[0])).unwrap();
    for job in &jobs[1..] {
        next = write_field(out, next, u64::from(*job)).unwrap();
    }
    write_end(out, next).unwrap()
}

// Writes the chains of all waiting jobs, in ascending order, one line each; they fit. Returns the place after them.
#[tactic(auto, using(crate::proofs::Chaining::chain_fits, crate::proofs::Chaining::chained_none, crate::proofs::Chaining::room_for_chain, text_rules::proofs::WroteLaws::wrote_length))]
fn put_chains(out: &mut [u8], at: usize, d: Desk) -> usize
    requires { at + chains_room ≤ length out.old }
    ensures { Wrote at result (chain_text (chains_on d)) out.old out.new }
{
    let mut list = [0u32; PLACES];
    let mut next = at;
    let mut last = 0;
    for _i in 0..PLACES {
        let n = next_chain(d, last, &mut list);
        if n == 0 {
            break;
        }
        next = put_chain(out, next, &list[..n]);
        last = list[0];
    }
    next
}

// Writes the chains of the waiting jobs, by the method: on the timestamp desk nobody waits.
#[tactic(auto, using(crate::proofs::Cases::waiting_locks, crate::proofs::Cases::waiting_stamps, text_rules::proofs::WroteLaws::wrote_as, text_rules::proofs::WroteLaws::wrote_none))]
fn put_waiting(out: &mut [u8], at: usize, d: Desks) -> usize
    requires { at + chains_room ≤ length out.old }
    ensures { Wrote at result (chains_by d.method d) out.old out.new }
{
    match d.method {
        Method::Locks => put_chains(out, at, d.locks),
        Method::Stamps => at,
    }
}

// The room required for what is written at the end.
fn closing_room(view: View) -> usize
    ensures { result ≡ closing_room view }
{
    match view {
        View::Answers | View::History => 0,
        View::Chains => CHAINS_ROOM,
    }
}

// Writes what a program writes last, behind the records of its lines: the chains of the waiting jobs, and nothing for answers and history. If it does not fit, the buffer must be written out first.
#[tactic(auto, using(program_rules::proofs::Ends::closes_full, program_rules::proofs::Ends::closes_room))]
pub fn close(view: View, c: Clerk, out: &mut [u8], at: usize) -> Finished
    ensures { (result ≡ (close_of view c out.old at).finished) × (out.new ≡ (close_of view c out.old at).out) }
{
    if !has_room(out.len(), at, closing_room(view)) {
        return Finished { at, full: true };
    }
    let to = match view {
        View::Answers | View::History => at,
        View::Chains => put_waiting(out, at, c.desks),
    };
    Finished {
        at: to,
        full: false,
    }
}
