// The records of one line in each view: the answer, or what the history notes of it, then the wakes; none for the chains (01, Lines; 02, No. 3).
ghost use Rattle.std.specs.Prelude.{◌≡◌, true, ◌+◌, ◌*◌, ◌≤◌, map, length, Some};
ghost use Rattle.terms.specs.Limits.{last_number, places};
ghost use Rattle.text_rules.specs.Records.{of_answers, answer_record, longest_record, line_record};
ghost use Rattle.text_rules.specs.Wrote.{Wrote};
ghost use Rattle.desks.specs.AnswerWords.{word_of, number_beside, field_beside};
ghost use Rattle.text_rules.specs.EventRecords.{ask_by, text_of};
ghost use Rattle.desk_arrays.specs.Steps.{wake_at};
ghost use Rattle.desks.specs.Records.{went_by, own_records};
ghost use Rattle.program_rules.specs.Work.{viewed, told_bad, line_room};
ghost use Rattle.clerk.specs.Parts.{Added, Besides, asking, noted_bytes, first_record, wake_record, wake_records, line_records};

use crate::heading::{Heading, Reply};
use conflict::action::{Action, Kind};
use conflict::modes::recorded_kind;
use desk::wakes::wake_at;
use desk_arrays::board::Waits;
use desks::Answer;
use program_rules::View;
use terms::letters::{Ask, Letter};
use terms::refusals::{Field, Refusal, field_of};
use terms::words::Word;
use text::writer::{write_answer, write_line};
use text_rules::Line;

// The word of an answer: this and the two below are the definitions of an answer's record, one for one.
#[tactic(auto, unfolding(desks::specs::AnswerWords::word_of))]
fn word_of(a: Answer) -> Word
    ensures { (result ≡ word_of a) × (of_answers result ≡ true) }
{
    match a {
        Answer::Go(_) => Word::Go,
        Answer::Wait(_) => Word::Wait,
        Answer::Back(_) => Word::Back,
        Answer::No(_) => Word::No,
    }
}

// The number after the word: the job, or the refusal's number.
#[tactic(auto, unfolding(desks::specs::AnswerWords::number_beside))]
fn number_beside(a: Answer) -> u64
    ensures { (result ≡ number_beside a) × (result ≤ last_number) }
{
    match a {
        Answer::Go(j) | Answer::Wait(j) | Answer::Back(j) => u64::from(j),
        Answer::No(why) => u64::from(u8::from(why)),
    }
}

// The field after the number: the field at fault of a bad line, or 0 if there is none.
#[tactic(auto, unfolding(desks::specs::AnswerWords::field_beside))]
fn field_beside(a: Answer) -> u64
    ensures { result ≡ field_beside a }
{
    match a {
        Answer::Go(_) | Answer::Wait(_) | Answer::Back(_) => 0,
        Answer::No(why) => u64::from(field_of(why)),
    }
}

// The letter r, w or i, by the recorded kind. No `From`: both types are of other crates.
#[tactic(auto, unfolding(text_rules::specs::EventRecords::ask_by))]
fn ask_by(k: Kind) -> Ask
    ensures { result ≡ ask_by k }
{
    match k {
        Kind::Read => Ask::Read,
        Kind::Write => Ask::Write,
        Kind::Increment => Ask::Increment,
    }
}

// The line that the history notes of a request that goes, if any; u is noted as r.
#[tactic(auto, using(crate::proofs::Noting::went_ended, crate::proofs::Noting::went_untold))]
fn noted_go(letter: Letter, job: u32, cell: u32) -> Option<Line>
    ensures { noted_bytes result ≡ text_of (went_by (asking letter cell) job (Some letter)) }
{
    match letter {
        Letter::Begin | Letter::Retry | Letter::Back => None,
        Letter::Commit | Letter::GiveUp => Some(Line {
            letter,
            job,
            cell: 0,
        }),
        Letter::Asks(a) => Some(Line {
            letter: Letter::Asks(ask_by(recorded_kind(a))),
            job,
            cell,
        }),
    }
}

// The line that the history notes of a request and its answer, if any.
#[tactic(auto, using(crate::proofs::Noting::own_back, crate::proofs::Noting::own_go, crate::proofs::Noting::own_no, crate::proofs::Noting::own_wait))]
fn noted_of(r: Reply) -> Option<Line>
    ensures { noted_bytes result ≡ text_of (own_records (asking r.letter r.cell) r.answer) }
{
    match r.answer {
        Answer::Go(j) => noted_go(r.letter, j, r.cell),
        Answer::Back(j) => Some(Line {
            letter: Letter::Back,
            job: j,
            cell: 0,
        }),
        Answer::Wait(_) | Answer::No(_) => None,
    }
}

// Writes an answer record, which fits.
fn put_answer(out: &mut [u8], at: usize, h: Heading, word: Word, number: u64, fault: u64) -> usize
    requires { (of_answers word ≡ true) × Besides number fault × (at + longest_record ≤ length out.old) }
    ensures { Added longest_record at result (answer_record h.line word number fault) out.old out.new }
{
    write_answer(out, at, h.line, word, number, fault).unwrap()
}

// Writes the line of a letter, which fits.
fn put_line(out: &mut [u8], at: usize, l: Line) -> usize
    requires { at + longest_record ≤ length out.old }
    ensures { Added longest_record at result (line_record l.letter l.job l.cell) out.old out.new }
{
    write_line(out, at, l.letter, u64::from(l.job), u64::from(l.cell)).unwrap()
}

// Writes the line that the history notes, if any.
#[tactic(auto, using(crate::proofs::Adding::added_as, crate::proofs::Cases::line_noted))]
fn put_noted(out: &mut [u8], at: usize, noted: Option<Line>) -> usize
    requires { at + longest_record ≤ length out.old }
    ensures { Added longest_record at result (noted_bytes noted) out.old out.new }
{
    match noted {
        None => at,
        Some(l) => put_line(out, at, l),
    }
}

// Writes the first record of a line; on a desk without wakes it is the only one.
#[tactic(auto, using(crate::proofs::Adding::added_as, crate::proofs::Adding::answer_besides, crate::proofs::Cases::first_answer, crate::proofs::Cases::first_noted))]
pub fn put_first(out: &mut [u8], at: usize, h: Heading, r: Reply) -> usize
    requires { at + longest_record ≤ length out.old }
    ensures { Added longest_record at result (first_record h.view h.line r.letter r.cell r.answer) out.old out.new }
{
    let a = r.answer;
    match h.view {
        View::Answers => put_answer(out, at, h, word_of(a), number_beside(a), field_beside(a)),
        View::History => put_noted(out, at, noted_of(r)),
        View::Chains => at,
    }
}

// Writes the record of a wake.
#[tactic(auto, using(crate::proofs::Adding::added_as, crate::proofs::Cases::wake_answer, crate::proofs::Cases::wake_noted))]
fn put_wake(out: &mut [u8], at: usize, h: Heading, a: Action) -> usize
    requires { at + longest_record ≤ length out.old }
    ensures { Added longest_record at result (wake_record h.view h.line a) out.old out.new }
{
    match h.view {
        View::Answers => put_answer(out, at, h, Word::Wake, u64::from(a.job), 0),
        View::History => {
            let letter = Letter::Asks(ask_by(a.kind));
            put_line(
                out,
                at,
                Line {
                    letter,
                    job: a.job,
                    cell: a.cell,
                },
            )
        }
        View::Chains => at,
    }
}

// Writes one record for each woken place; number and request are read off the desk's arrays.
#[tactic(auto, using(crate::proofs::Waking::wakes_all))]
fn put_wakes(out: &mut [u8], at: usize, h: Heading, w: Waits, woken: &[u8]) -> usize
    requires { at + longest_record * length woken.now ≤ length out.old }
    ensures { Wrote at result (wake_records h.view h.line (map (wake_at w.entry.number.now w.entry.cell.now w.entry.ask.now) woken.now)) out.old out.new }
{
    let mut next = at;
    for p in woken {
        next = put_wake(out, next, h, wake_at(w, usize::from(*p)));
    }
    next
}

// Writes all records of a line with a good request. Most steps wake nobody.
pub fn put_records(out: &mut [u8], at: usize, h: Heading, r: Reply, w: Waits, woken: &[u8]) -> usize
    requires { (length woken.now ≤ places) × (at + line_room ≤ length out.old) }
    ensures { Wrote at result (line_records h.view h.line r.letter r.cell r.answer (map (wake_at w.entry.number.now w.entry.cell.now w.entry.ask.now) woken.now)) out.old out.new }
{
    let next = put_first(out, at, h, r);
    put_wakes(out, next, h, w, woken)
}

// Writes the record of a bad line: refusal 9 and the field at fault among the answers; none in the history or for the chains.
#[tactic(auto, using(crate::proofs::Cases::bad_answer, crate::proofs::Cases::bad_untold, terms::proofs::Numbers::field_within, text_rules::proofs::WroteLaws::wrote_as, text_rules::proofs::WroteLaws::wrote_none))]
pub fn put_bad(out: &mut [u8], at: usize, h: Heading, field: Field) -> usize
    requires { at + line_room ≤ length out.old }
    ensures { Wrote at result (viewed h.view (told_bad h.line field)) out.old out.new }
{
    match h.view {
        View::Answers => put_answer(
            out,
            at,
            h,
            Word::No,
            u64::from(u8::from(Refusal::BadLine(field))),
            u64::from(u8::from(field)),
        ),
        View::History | View::Chains => at,
    }
}
