// The words of answer records and verdict lines, the tab and the newline (01, Lines; 01, The judge's rules).
ghost use Rattle.std.specs.Prelude.{◌≡◌};
ghost use Rattle.terms.specs.Words.{spelt};

// The words of records and lines.
#[derive(Clone, Copy)]
pub enum Word {
    // an answer: the request was done
    Go,
    // an answer: the job waits
    Wait,
    // an answer: the job was sent back
    Back,
    // a refusal, in answers and verdicts
    No,
    // a job that waited was granted its cell
    Wake,
    // a verdict: there is a serial order
    Orderly,
    // a verdict: there is a cycle of conflicts
    Knot,
    // a verdict: a committed job read what was taken back
    Dirty,
}

// Fields are separated by a tab.
pub const TAB: u8 = b'\t';

// A line ends in a newline.
pub const NEWLINE: u8 = b'\n';

// How a word is spelled.
pub fn spelled(w: Word) -> &'static [u8]
    ensures { result.now ≡ spelt w }
{
    match w {
        Word::Go => b"go",
        Word::Wait => b"wait",
        Word::Back => b"back",
        Word::No => b"no",
        Word::Wake => b"wake",
        Word::Orderly => b"orderly",
        Word::Knot => b"knot",
        Word::Dirty => b"dirty",
    }
}
