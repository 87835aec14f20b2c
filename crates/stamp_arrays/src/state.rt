// The timestamp desk's arrays, what a step leaves and says, and how a desk is started (02, No. 6; 01, Jobs and their numbers).
ghost use Rattle.std.specs.Prelude.{◌≡◌};
ghost use Rattle.stamp_arrays.specs.Steps.{empty_stamps, start_of};

use desks::Answer;
use terms::limits::{CELLS, PLACES};
use terms::refusals::Refusal;

// How many numbers of each kind there are: one for each cell.
pub const ROWS: usize = CELLS as usize;

// The timestamp desk: the next number; for each place the job's number, 0 if the place is free;
// and for each cell the largest number that read it and the largest that wrote it.
// These are arrays of plain numbers, each of its own, since the C exports of `tuyenlomac` lend them so.
#[derive(Clone, Copy)]
pub struct Stamps {
    pub next: u64,
    pub number: [u32; PLACES],
    pub reader: [u32; ROWS],
    pub writer: [u32; ROWS],
}

// The desk that a step leaves, and its answer. There are no wakes: nobody waits here.
#[derive(Clone, Copy)]
pub struct Stamped {
    pub stamps: Stamps,
    pub answer: Answer,
}

impl Stamps {
    // A desk whose places are all free and whose cells' numbers are 0, with this next number.
    #[tactic(auto, unfolding(crate::specs::Steps::empty_stamps))]
    fn empty(first: u32) -> Stamps
        ensures { result ≡ empty_stamps first }
    {
        Stamps {
            next: first as u64,
            number: [0; PLACES],
            reader: [0; ROWS],
            writer: [0; ROWS],
        }
    }

    // The desk started at this first number; 0 is refused, with no desk (01, refusal 10).
    #[tactic(auto, unfolding(crate::specs::Steps::start_of))]
    pub fn start(first: u32) -> Result<Stamps, Refusal>
        ensures { result ≡ start_of first }
    {
        if first == 0 {
            return Err(Refusal::StartedAtZero);
        }
        Ok(Stamps::empty(first))
    }

    // The desk started at 1, the smallest first number; this never fails.
    #[tactic(auto, unfolding(crate::specs::Steps::start_of))]
    pub fn first() -> Stamps
        ensures { Ok result ≡ start_of 1 }
    {
        Stamps::empty(1)
    }
}
