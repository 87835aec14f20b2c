// What holds of every desk that is lent: an entry over a step by value, and a loop that keeps one desk and lends it in every turn (02, No. 7).
ghost use Rattle.std.specs.Prelude.{◌≡◌, ℕ, ◌-◌, ◌≤◌};

// The desk that a step by value leaves, and what it says.
pub struct Left<D, S> {
    pub desk: D,
    pub said: S,
}

// A desk that is stepped by value.
pub trait ByValue: Copy {
    type Said;

    // What a step gives, as one value.
    ghost Step: { Type 0 };

    // That value, joined of the desk left and what is said.
    ghost leaving: { Self → Self.Said → Step };

    // What a step on a desk gives, by kind, job and cell.
    ghost step_of: { Self → ℕ → ℕ → ℕ → Step };

    fn step(self, kind: u8, job: u32, cell: u32) -> Left<Self, Self::Said>
        ensures { leaving result.desk result.said ≡ step_of self kind job cell };
}

// The requests that a night makes to its desk.
pub trait Requests<D> {
    type Said;

    // How many requests are left to be made.
    ghost left_of: { Self → ℕ };

    fn left(&self) -> u64
        ensures { result ≡ left_of self.now };

    // What the lent desk says to the next request.
    fn lend(&self, d: &mut D) -> Self::Said;

    // The requests after this one was answered: fewer are left.
    fn after(self, said: Self::Said) -> Self
        ensures { left_of result ≤ left_of self - 1 };
}

// One request to a lent desk of any type, which both entries call (`locks::step_lent`, `stamps::step_lent`): the answer, and the desk left there, are those of the step by value.
pub fn lend<D: ByValue>(d: &mut D, kind: u8, job: u32, cell: u32) -> D::Said
    ensures { D.leaving d.new result ≡ D.step_of d.old kind job cell }
{
    let Left { desk, said } = (*d).step(kind, job, cell);
    *d = desk;
    said
}

// A night of any desk and any requests: one desk is kept and lent in every turn, each of which leaves fewer requests to be made, until none is left; it is safe and ends.
pub fn all_night<D: Drop, R: Requests<D>>(first: D, asked: R) -> R
    ensures { R.left_of result ≡ 0 }
{
    let mut desk = first;
    let mut requests = asked;
    while requests.left() > 0 {
        let said = requests.lend(&mut desk);
        requests = requests.after(said);
    }
    requests
}
