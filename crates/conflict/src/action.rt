// Actions and the events of a history, and which kinds of action conflict (01, The judge's rules).
ghost use Rattle.std.specs.Prelude.{◌≡◌};
ghost use Rattle.conflict.specs.Schedule.{agree, conflicts};

// The kinds of action that a history records.
#[derive(Clone, Copy)]
pub enum Kind {
    // r
    Read,
    // w
    Write,
    // i
    Increment,
}

// One action: a job does something to a cell.
#[derive(Clone, Copy)]
pub struct Action {
    pub kind: Kind,
    pub job: u32,
    pub cell: u32,
}

// What ends a run: c, a or k in a history.
#[derive(Clone, Copy)]
pub enum Mark {
    // c: the job ends for good, and what it did counts
    Commit,
    // a: the job ends for good
    GiveUp,
    // k: the job is sent back, and may come again
    Back,
}

// One line of a history: one of two kinds of line, of which neither is a failure.
#[derive(Clone, Copy)]
pub enum Event {
    // a job does something
    Does(Action),
    // a job's run ends
    Ends(Mark, u32),
}

// Whether two kinds agree: both are reads, or both are increments. Actions of different jobs on one cell conflict unless their kinds agree.
#[tactic(auto, unfolding(crate::specs::Schedule::agree))]
pub fn kinds_agree(a: Kind, b: Kind) -> bool
    ensures { result ≡ agree a b }
{
    matches!(
        (a, b),
        (Kind::Read, Kind::Read) | (Kind::Increment, Kind::Increment)
    )
}

// Whether two actions conflict: they are by two jobs on one cell, and their kinds do not agree.
#[tactic(auto, using(crate::proofs::Conflicting::apart, crate::proofs::Conflicting::by_kinds, crate::proofs::Conflicting::one_job))]
pub fn actions_conflict(a: Action, b: Action) -> bool
    ensures { result ≡ conflicts a b }
{
    a.cell == b.cell && a.job != b.job && !kinds_agree(a.kind, b.kind)
}
