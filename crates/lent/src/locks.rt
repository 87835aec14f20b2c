// The lock desk, lent to each request (02, No. 7).
ghost use Rattle.std.specs.Prelude.{◌≡◌};
ghost use Rattle.desk_arrays.specs.Steps.{step_of};
ghost use Rattle.desk_arrays.specs.declared.state.Outcome.{Outcome};
ghost use Rattle.lent.specs.Entries.{leaving};

use crate::night::{ByValue, Left, lend};
use desk::step::step;
use desk_arrays::state::{Desk, Outcome, Said};

// One request to a lent lock desk: the answer, and the desk left there, are those of the step by value.
pub fn step_lent(d: &mut Desk, kind: u8, job: u32, cell: u32) -> Said
    ensures { leaving d.new result ≡ step_of d.old kind job cell }
{
    lend(d, kind, job, cell)
}

// The lock desk is stepped by value.
impl ByValue for Desk {
    type Said = Said;

    ghost Step = { Outcome };

    ghost leaving = { leaving };

    ghost step_of = { step_of };

    fn step(self, kind: u8, job: u32, cell: u32) -> Left<Desk, Said> {
        let Outcome { desk, said } = step(self, kind, job, cell);
        Left { desk, said }
    }
}
