// What every desk is, by locks or by timestamps: it takes requests by numbers, one step at a time, and gives these answers.
#![tactic(auto)]

pub mod finding;

use terms::refusals::Refusal;

// Go, wait or back, with the job, or a refusal (01, Refusals by number). For a begin the job is the new one. It is the paper's answer with its four words, so no Result: wait and back are no less answers than go.
#[derive(Clone, Copy)]
pub enum Answer {
    // it is done, or granted
    Go(u32),
    // the job waits, and a wake tells it when it may go on
    Wait(u32),
    // the job is sent back (aborted): its run has ended
    Back(u32),
    // nothing was done; the refusal says why
    No(Refusal),
}
