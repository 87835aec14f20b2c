// The desk's arrays, what a step says, and the small changes that a step is made of (01, The desk's rules).
ghost use Rattle.std.specs.Prelude.{◌≡◌};
ghost use Rattle.desk_arrays.specs.Steps.{empty_desk, start_of, retried_job};

use crate::codes::{RUNNING, SENT_BACK};
use conflict::action::Action;
use desks::Answer;
use terms::limits::{CELLS, PLACES};
use terms::refusals::Refusal;

// The number of rows of modes, one for each cell.
pub const ROWS: usize = CELLS as usize;
// The number of modes, one for each cell and place.
pub const SPOTS: usize = ROWS * PLACES;

// The desk: the next number; for each place the job's number (0 if the place is free), what the job is doing and what it waits for;
// and for each cell and place the mode held. What a job is doing, what it asked and the mode are numbers: a caller in C lends these arrays.
#[derive(Clone, Copy)]
pub struct Desk {
    pub next: u64,
    pub number: [u32; PLACES],
    pub status: [u8; PLACES],
    pub cell: [u8; PLACES],
    pub ask: [u8; PLACES],
    pub held: [u8; SPOTS],
}

// What a step says: the answer, and the wakes in their order.
#[derive(Clone, Copy)]
pub struct Said {
    pub answer: Answer,
    pub wakes: [Action; PLACES],
    pub count: usize,
}

// What a step says where the wakes are told as places: the answer, and the number of wakes.
#[derive(Clone, Copy)]
pub struct Told {
    pub answer: Answer,
    pub count: usize,
}

// The desk that a step leaves, and what it says.
#[derive(Clone, Copy)]
pub struct Outcome {
    pub desk: Desk,
    pub said: Said,
}

impl Desk {
    // A desk whose places are all free, with this next number.
    #[tactic(auto, unfolding(crate::specs::Steps::empty_desk))]
    fn empty(first: u64) -> Desk
        ensures { result ≡ empty_desk first }
    {
        Desk {
            next: first,
            number: [0; PLACES],
            status: [0; PLACES],
            cell: [0; PLACES],
            ask: [0; PLACES],
            held: [0; SPOTS],
        }
    }

    // The desk started at this first number; 0 is refused, with no desk (01, refusal 10).
    #[tactic(auto, unfolding(crate::specs::Steps::start_of))]
    pub fn start(first: u32) -> Result<Desk, Refusal>
        ensures { result ≡ start_of first }
    {
        if first == 0 {
            return Err(Refusal::StartedAtZero);
        }
        Ok(Desk::empty(u64::from(first)))
    }

    // The desk started at 1, the smallest first number; this never fails.
    #[tactic(auto, unfolding(crate::specs::Steps::start_of))]
    pub fn first() -> Desk
        ensures { Ok result ≡ start_of 1 }
    {
        Desk::empty(1)
    }

    // Rule 5: a sent back job runs again, still holding nothing; for any other number nothing changes.
    // A loop here, and no call of `place_of`: lending a field of a desk taken by value made each retry copy the whole desk once more.
    #[tactic(auto, unfolding(crate::specs::Steps::retried), using(crate::proofs::Retrying::back_retries, crate::proofs::Retrying::nobody_retries, crate::proofs::Retrying::other_stays, crate::proofs::Retrying::unopened_stays, desks::proofs::Found::found_here, desks::proofs::Found::found_later, desks::proofs::Found::found_nowhere))]
    pub fn retry(mut self, job: u32) -> Desk
        ensures { result ≡ retried_job self job }
    {
        if job == 0 {
            return self;
        }
        for p in 0..PLACES {
            if self.number[p] == job {
                if self.status[p] == SENT_BACK {
                    self.status[p] = RUNNING;
                }
                return self;
            }
        }
        self
    }
}
