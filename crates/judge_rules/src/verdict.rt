// What the judge says (01, The judge's rules): the paper's four words, so no Result.
use terms::refusals::Refusal;

// Dirty with its reader and its writer, which fill the first two places of the order buffer; orderly or a knot, with how many jobs fill its first places; or a refusal with its line number, 0 if it is not for a line.
#[derive(Clone, Copy)]
pub enum Verdict {
    // the history is not dirty, and its committed part is conflict-serializable: this many jobs, in a serial order
    Orderly(usize),
    // it is not dirty, and its committed part is not conflict-serializable: this many jobs, a cycle of conflicts
    Knot(usize),
    // the history is dirty: the job of the first dirty read, and the job that had written
    Dirty { reader: u8, writer: u8 },
    // there is no verdict: the line number, and why
    No { line: usize, why: Refusal },
}
