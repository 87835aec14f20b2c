// Lines of a word and numbers: a line that fits is written whole, from the buffer's first byte on; of a line that does not fit nothing is written (01, The judge's rules; refusal 15).
ghost use Rattle.std.specs.Prelude.{◌≡◌, [], ◌∷◌, ◌+◌, ◌≤◌, ◌<◌, leb, length};
ghost use Rattle.terms.specs.declared.words.Word.TheVariants.{No};
ghost use Rattle.terms.specs.Words.{tab, newline, spelt};
ghost use Rattle.text_rules.specs.Decimal.{decimal};
ghost use Rattle.text_rules.specs.Records.{told, left, tabbed, word_line, given};
ghost use Rattle.text_rules.specs.Wrote.{Wrote};

use terms::{Refusal, Word, spelled};
use text::{width, write_end, write_field, write_word};

// Writes a word that fits; returns the place after it.
fn put_word(out: &mut [u8], at: usize, word: Word) -> usize
    requires { at + length (spelt word) ≤ length out.old }
    ensures { Wrote at result (spelt word) out.old out.new }
{
    write_word(out, at, word).unwrap_or(at)
}

// Writes a further field that fits; returns the place after it.
fn put_field(out: &mut [u8], at: usize, n: u64) -> usize
    requires { at + length (tab ∷ decimal n) ≤ length out.old }
    ensures { Wrote at result (tab ∷ decimal n) out.old out.new }
{
    write_field(out, at, n).unwrap_or(at)
}

// Writes the newline, which fits; returns the place after it.
fn put_end(out: &mut [u8], at: usize) -> usize
    requires { at < length out.old }
    ensures { Wrote at result (newline ∷ []) out.old out.new }
{
    write_end(out, at).unwrap_or(at)
}

// Whether a field for each job fits; no sum here can wrap.
fn jobs_fit(jobs: &[u8], room: usize) -> bool
    ensures { result ≡ leb (length (tabbed jobs.now)) room }
{
    let mut spare = room;
    for job in jobs {
        let digits = width(u64::from(*job));
        if spare <= digits {
            return false;
        }
        spare -= digits + 1;
    }
    true
}

// Writes a field for each job, all of which fit; returns the place after the last.
fn put_jobs(out: &mut [u8], at: usize, jobs: &[u8]) -> usize
    requires { at + length (tabbed jobs.now) ≤ length out.old }
    ensures { Wrote at result (tabbed jobs.now) out.old out.new }
{
    let mut next = at;
    for job in jobs {
        next = put_field(out, next, u64::from(*job));
    }
    next
}

// Writes a word and jobs, with a tab before each job.
pub fn write_jobs(out: &mut [u8], word: Word, jobs: &[u8]) -> Result<usize, Refusal>
    ensures { (result ≡ told out.old 0 (word_line word jobs.now)) × (out.new ≡ left out.old 0 (word_line word jobs.now)) }
{
    let len = spelled(word).len();
    let room = out.len();
    if room <= len {
        return Err(Refusal::NoRoom);
    }
    if !jobs_fit(jobs, room - len - 1) {
        return Err(Refusal::NoRoom);
    }
    let a = put_word(out, 0, word);
    let b = put_jobs(out, a, jobs);
    Ok(put_end(out, b))
}

// How many bytes an optional number takes: a tab and its digits, or 0 bytes if the number is 0.
#[tactic(auto, using(crate::proofs::WordLines::given_none, crate::proofs::WordLines::given_there, text_rules::proofs::DigitLaws::decimal_at_most_20))]
fn given_width(n: u64) -> usize
    ensures { result ≡ length (tabbed (given n)) }
{
    if 0 < n { width(n) + 1 } else { 0 }
}

// Writes a further field that fits, unless the number is 0; returns the place after it.
#[tactic(auto, using(crate::proofs::WordLines::given_none, crate::proofs::WordLines::given_there, text_rules::proofs::WroteLaws::wrote_as, text_rules::proofs::WroteLaws::wrote_none))]
fn put_given(out: &mut [u8], at: usize, n: u64) -> usize
    requires { at + length (tabbed (given n)) ≤ length out.old }
    ensures { Wrote at result (tabbed (given n)) out.old out.new }
{
    if 0 < n { put_field(out, at, n) } else { at }
}

// Writes the word no and its numbers, with a tab before each: line number, refusal, and the field at fault if it is not 0 (02, No. 5).
#[tactic(auto, using(crate::proofs::WordLines::given_at_most_21, text_rules::proofs::DigitLaws::decimal_at_most_20))]
pub fn write_no(out: &mut [u8], line: u64, number: u64, fault: u64) -> Result<usize, Refusal>
    ensures { (result ≡ told out.old 0 (word_line No (line ∷ number ∷ given fault))) × (out.new ≡ left out.old 0 (word_line No (line ∷ number ∷ given fault))) }
{
    let room = out.len();
    if width(line) + width(number) + given_width(fault) + 5 <= room {
        let a = put_word(out, 0, Word::No);
        let b = put_field(out, a, line);
        let c = put_field(out, b, number);
        let d = put_given(out, c, fault);
        Ok(put_end(out, d))
    } else {
        Err(Refusal::NoRoom)
    }
}
