// The scanning half of the judge: reads the lines of a history text in order, and keeps each as three numbers, up to the first faulty line (01, Refusals by number).
ghost use Rattle.std.specs.Prelude.{◌≡◌, ◌≤◌, ◌<◌, length};
ghost use Rattle.terms.specs.Letters.{of_histories};
ghost use Rattle.text_rules.specs.Lines.{read_line};
ghost use Rattle.judge.specs.Looked.{code_of, ends_job, looked_good, looked_at};
ghost use Rattle.judge.specs.Scanned.{bare_end, ScannedAs};

use crate::lines::{KeptLine, KeptLines};
use std::ops::Range;
use terms::letters::{Ask, Letter};
use terms::limits::{CELLS, JUDGED_JOBS, JUDGED_LINES};
use terms::refusals::Refusal;
use terms::words::NEWLINE;
use text::reader::read_history;
use text_rules::Line;
use text_rules::splitter::line_end;

// The first faulty line: its number, its refusal, and its place in the text without its newline.
#[derive(Drop)]
pub struct Faulty {
    pub line: usize,
    pub why: Refusal,
    pub place: Range<usize>,
}

// The code of a history letter; that of sent back, for a letter that no history has.
fn code_of(l: Letter) -> u8
    ensures { result ≡ code_of l }
{
    match l {
        Letter::Asks(Ask::Read) => 0,
        Letter::Asks(Ask::Write) => 1,
        Letter::Asks(Ask::Increment) => 2,
        Letter::Commit => 3,
        Letter::GiveUp => 4,
        _ => 5,
    }
}

// Whether the job has ended for good: by a commit or a give-up.
#[tactic(auto, unfolding(crate::specs::Looked::ends_job))]
fn ends_job(code: u8) -> bool
    ensures { result ≡ ends_job code }
{
    matches!(code, 3 | 4)
}

// A well-formed line, given the jobs that have committed or given up: refusal 12, then 2, then 13. A letter without a cell has cell 0 here.
#[tactic(auto, unfolding(crate::specs::Looked::looked_good))]
fn look_good(ended: &[bool; 256], good: Line) -> Result<KeptLine, Refusal>
    ensures { result ≡ looked_good ended.now good }
{
    let job = good.job as usize;
    if job == 0 || job > JUDGED_JOBS {
        return Err(Refusal::JobOutside);
    }
    if good.cell >= CELLS {
        return Err(Refusal::CellAbove);
    }
    if ended[job] {
        return Err(Refusal::Ended);
    }
    Ok(KeptLine {
        code: code_of(good.letter),
        job: job as u8,
        cell: good.cell as u8,
    })
}

// Line n of a history, given the jobs that have committed or given up: refusal 11, then 9 with the field at fault, then those of a well-formed line.
#[tactic(auto, unfolding(crate::specs::Looked::looked_at, crate::specs::Looked::looked_read))]
fn look(line: &[u8], n: usize, ended: &[bool; 256]) -> Result<KeptLine, Refusal>
    ensures { result ≡ looked_at n ended.now (read_line of_histories line.now) }
{
    if n > JUDGED_LINES {
        return Err(Refusal::TooManyLines);
    }
    let good = read_history(line).map_err(Refusal::BadLine)?;
    look_good(ended, good)
}

// Where a line that ends before this place ends without its newline: this place, or the newline's.
#[tactic(auto, unfolding(crate::specs::Scanned::bare_end))]
fn bare_end(text: &[u8], to: usize) -> usize
    requires { (0 < to) × (to ≤ length text.now) }
    ensures { result ≡ bare_end text.now to }
{
    let last = to - 1;
    if text[last] == NEWLINE { last } else { to }
}

// Scans the lines of a text in order and keeps them, up to the first faulty line; how many there are. The loop goes from line to line, and each line tells where the next begins.
#[tactic(auto, using(crate::proofs::Scanning::line_falls, crate::proofs::Scanning::line_some, crate::proofs::Scanning::line_within, crate::proofs::Scanning::scanning_kept))]
pub fn scan(text: &[u8], lines: &mut KeptLines) -> Result<usize, Faulty>
    ensures { ScannedAs text.now lines.new result }
{
    let mut ended = [false; 256];
    let mut n = 0;
    let mut from = 0;
    while from < text.len() {
        let number = n + 1;
        let to = line_end(text, from);
        match look(&text[from..to], number, &ended) {
            Ok(line) => {
                lines.keep(n, line);
                ended[usize::from(line.job)] = ends_job(line.code);
            }
            Err(why) => {
                let place = from..bare_end(text, to);
                return Err(Faulty {
                    line: number,
                    why,
                    place,
                });
            }
        }
        n = number;
        from = to;
    }
    Ok(n)
}
