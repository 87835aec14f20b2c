// What a step is to do, decided before anything changes (01, The desk's rules; 01, Refusals by number).
use conflict::modes::Mode;
use terms::letters::Ask;

// How a run ends: the job is closed, or it is sent back.
#[derive(Clone, Copy)]
pub enum Ending {
    // by commit or give-up: the place is free
    Closed,
    // by the desk: the job is sent back (aborted), and keeps its number and its place
    SentBack,
}

// A step's move: open a place for a new number, let the job go as it is, give it a mode, let it wait,
// end the run at a place, or let the job run again.
#[derive(Clone, Copy)]
pub enum Move {
    // a place gets a number, and its job runs
    Begin(usize, u32),
    // change nothing: the job has what it needs
    Keep,
    // a place gets a mode on the cell
    Take(usize, Mode),
    // a place waits for the cell, with what was asked
    Stay(usize, Ask),
    // the run at a place ends
    End(usize, Ending),
    // the job runs again
    Retry,
}

// The place of a job, and what the job is doing. One that is not open is free, which is one of the four things that `code` tells, so this is no `Option`.
#[derive(Clone, Copy)]
pub struct Found {
    pub place: usize,
    pub code: u8,
}
