// What a clerk keeps between the chunks of an input, and the runs of the desk programs as definitions (01, What is delivered; 02, No. 6).
#![tactic(auto)]

ghost use Rattle.std.specs.Prelude.{◌≡◌};
ghost use Rattle.program_rules.specs.Work.{started_clerk};

use desk_arrays::state::Desk;
use stamp_arrays::state::Stamps;
use text_rules::Splitter;

// The method by which requests are answered: each has its desk.
// The definitions choose by it which desk steps (`step_by`), so it is an enum and not a closure that is passed on.
#[derive(Clone, Copy)]
pub enum Method {
    // by locks
    Locks,
    // by timestamps
    Stamps,
}

// Both desks, and the method that says which of them is asked; the other is never touched.
#[derive(Clone, Copy)]
pub struct Desks {
    pub method: Method,
    pub locks: Desk,
    pub stamps: Stamps,
}

// The desks, and the line being put together.
#[derive(Clone, Copy)]
pub struct Clerk {
    pub desks: Desks,
    pub splitter: Splitter,
}

// What is written: the answers, the history, or the chains of the waiting jobs.
// The definitions choose by it what is written (`viewed`, `closing`), so it is an enum and not a closure that is passed on.
#[derive(Clone, Copy)]
pub enum View {
    // the answers, one for each line, each with its wakes
    Answers,
    // what was granted and what ended, in order
    History,
    // no record for a line; at the end of the input, the chains of the waiting jobs
    Chains,
}

// How far the work on a chunk has come: the clerk, the place in the chunk, the place after the records, and whether it stopped for lack of room. It goes on from there either way, so `full` is no error.
// A struct with `full` beside the places, as `docs/LINKING.md` names it: a caller goes on from these places whether it is full or not.
#[derive(Clone, Copy)]
pub struct Worked {
    pub clerk: Clerk,
    pub next: usize,
    pub at: usize,
    pub full: bool,
}

// The end of the input: the place after the last bytes written, and whether there was no room for them. Both cases have the place, and pages name the fields, so it is no Result.
// A struct as `docs/LINKING.md` names it; the place stands in it either way.
#[derive(Clone, Copy)]
pub struct Finished {
    pub at: usize,
    pub full: bool,
}

impl Clerk {
    // A clerk that has seen no byte; each desk is started at 1.
    #[tactic(auto, unfolding(crate::specs::Work::started_clerk, crate::specs::Desks::new_desks), using(desk_arrays::proofs::Starting::desk_first, stamp_arrays::proofs::Starting::stamps_first))]
    pub fn started(method: Method) -> Clerk
        ensures { result ≡ started_clerk method }
    {
        let locks = Desk::first();
        let stamps = Stamps::first();
        let desks = Desks {
            method,
            locks,
            stamps,
        };
        let splitter = Splitter::started();
        Clerk { desks, splitter }
    }
}
