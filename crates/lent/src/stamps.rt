// The timestamp desk, lent to each request (02, No. 7).
ghost use Rattle.std.specs.Prelude.{◌≡◌};
ghost use Rattle.stamp_arrays.specs.Steps.{step_of};
ghost use Rattle.stamp_arrays.specs.declared.state.Stamped.{Stamped};
ghost use Rattle.lent.specs.Entries.{stamping};

use crate::night::{ByValue, Left, lend};
use desks::Answer;
use stamp_arrays::state::{Stamped, Stamps};
use stamp_desk::step::step;

// One request to a lent timestamp desk: the answer, and the desk left there, are those of the step by value.
pub fn step_lent(d: &mut Stamps, kind: u8, job: u32, cell: u32) -> Answer
    ensures { stamping d.new result ≡ step_of d.old kind job cell }
{
    lend(d, kind, job, cell)
}

// The timestamp desk is stepped by value.
impl ByValue for Stamps {
    type Said = Answer;

    ghost Step = { Stamped };

    ghost leaving = { stamping };

    ghost step_of = { step_of };

    fn step(self, kind: u8, job: u32, cell: u32) -> Left<Stamps, Answer> {
        let Stamped {
            stamps: desk,
            answer: said,
        } = step(self, kind, job, cell);
        Left { desk, said }
    }
}
