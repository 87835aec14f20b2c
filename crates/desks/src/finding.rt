// The places of a desk: where a job stands, and where a new one is opened (01, Jobs and their numbers; 01, Refusals by number).
ghost use Rattle.std.specs.Prelude.{◌==◌, ◌≡◌, position};
ghost use Rattle.laws.specs.Lists.{pos};
ghost use Rattle.desks.specs.Opening.{opening_of};

use terms::limits::{LAST_NUMBER, PLACES};
use terms::refusals::Refusal;

// Where a new job is opened, and under which number.
#[derive(Clone, Copy)]
pub struct Opening {
    pub place: usize,
    pub number: u32,
}

// The first place that has this number, if there is one.
fn first_with(number: &[u32; PLACES], job: u32) -> Option<usize>
    ensures { result ≡ position (λ n. n == job) number.now }
{
    number.iter().position(|n| *n == job)
}

// The place of a job, or 32 if it has none, as the definition `pos` has it, of which the desks' promises speak; the place of job 0 is the first free place.
pub fn place_of(number: &[u32; PLACES], job: u32) -> usize
    ensures { result ≡ pos number.now job }
{
    first_with(number, job).unwrap_or(PLACES)
}

// Begin: 7, then 6, else the next number at the first free place.
#[tactic(auto, unfolding(crate::specs::Opening::opening_of))]
pub fn opening_for(next: u64, number: &[u32; PLACES]) -> Result<Opening, Refusal>
    ensures { result ≡ opening_of next number.now }
{
    if (LAST_NUMBER as u64) < next {
        return Err(Refusal::NoNumberLeft);
    }
    let place = place_of(number, 0);
    if place < PLACES {
        let number = next as u32;
        return Ok(Opening { place, number });
    }
    Err(Refusal::AllOpen)
}
