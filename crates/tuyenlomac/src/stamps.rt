// The timestamp desk for a caller that keeps it: the desk's four fields are lent to each call, and changed where they stand (02, No. 6; 02, No. 7).
// The C interface keeps the four fields as four arguments.
ghost use Rattle.std.specs.Prelude.{◌≡◌};
ghost use Rattle.desks.specs.Told.{request};
ghost use Rattle.stamp_arrays.specs.Steps.{stamps_of, start_of};
ghost use Rattle.tuyenlomac.specs.Desks.{stamps_number, stamps_leaves};
ghost use Rattle.tuyenlomac.specs.Calls.{stamps_call, OnStamps};

use crate::answers::{Answered, in_three};
use stamp_arrays::state::{ROWS, Stamps};
use stamp_desk::step::step_on;
use terms::limits::PLACES;

// Starts a timestamp desk at a first number and answers 0. For number 0 the answer is refusal 10, and what is there stays (01, refusal 10).
#[tactic(auto, unfolding(crate::specs::Desks::stamps_leaves, crate::specs::Desks::stamps_number))]
pub fn tuyenlomac_stamps_start_on(
    next: &mut u64,
    number: &mut [u32; PLACES],
    reader: &mut [u32; ROWS],
    writer: &mut [u32; ROWS],
    first: u32,
) -> u32
    ensures refusal { result ≡ stamps_number (start_of first) }
    ensures desk { stamps_of next.new number.new reader.new writer.new ≡ stamps_leaves (stamps_of next.old number.old reader.old writer.old) (start_of first) }
{
    match Stamps::start(first) {
        Ok(d) => {
            Stamps {
                next: *next,
                number: *number,
                reader: *reader,
                writer: *writer,
            } = d;
            0
        }
        Err(why) => u32::from(u8::from(why)),
    }
}

// One request by the letter's byte, the job and the cell. No job waits here, so none wakes.
pub fn tuyenlomac_stamps_step_on(
    next: &mut u64,
    number: &mut [u32; PLACES],
    reader: &mut [u32; ROWS],
    writer: &mut [u32; ROWS],
    kind: u8,
    job: u32,
    cell: u32,
) -> Answered
    ensures { OnStamps (stamps_of next.old number.old reader.old writer.old) (request kind job cell) (stamps_call (stamps_of next.new number.new reader.new writer.new) result) }
{
    in_three(step_on(next, number, reader, writer, kind, job, cell), 0)
}
