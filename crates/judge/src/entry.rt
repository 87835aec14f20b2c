// The judge's entries. One gives the verdict; two give it in four numbers with the faulty line: as a part of the text, or as its place there (01, The judge's rules; 02, No. 5).
ghost use Rattle.std.specs.Prelude.{◌≡◌, length};
ghost use Rattle.judge_rules.specs.Judgement.{judgement_of, line_from, in_numbers};
ghost use Rattle.judge.specs.Judged.{Small, JudgedAs, line_place};

use crate::lines::KeptLines;
use crate::scan::{Faulty, scan};
use judge_core::kept::judge_kept;
use judge_rules::verdict::Verdict;
use std::ops::Range;
use terms::limits::{JUDGED_JOBS, JUDGED_LINES};
use terms::refusals::{Refusal, field_of};

// What is said, and where in the text the line handed back stands: an empty place at the text's start, if there is none.
#[derive(Drop)]
struct Judged {
    said: Verdict,
    place: Range<usize>,
}

// Where the faulty line stands in the text: the place of its first byte, and its length without the newline; 0 and 0 if no line is faulty.
#[derive(Clone, Copy)]
pub struct LineAt {
    pub from: usize,
    pub length: usize,
}

// The verdict on a text, with the place of the faulty line: refusal 14 first, then the lines in order, then what they say.
fn judgement(text: &[u8], order: &mut [u8]) -> Judged
    ensures { JudgedAs text.now order.old order.new result }
{
    if order.len() < JUDGED_JOBS {
        let said = Verdict::No {
            line: 0,
            why: Refusal::ShortOrder,
        };
        return Judged { said, place: 0..0 };
    }
    let mut lines = KeptLines::none();
    match scan(text, &mut lines) {
        Ok(n) => {
            let said = judge_kept(&lines.codes, &lines.jobs, &lines.cells, n, order);
            Judged { said, place: 0..0 }
        }
        Err(Faulty { line, why, place }) => {
            let said = Verdict::No { line, why };
            Judged { said, place }
        }
    }
}

// A verdict in four numbers; the fourth is the field at fault for refusal 9, else 0 (02, No. 5).
#[tactic(auto, using(crate::proofs::Numbered::dirty_numbers, crate::proofs::Numbered::knot_fits, crate::proofs::Numbered::knot_numbers, crate::proofs::Numbered::line_fits, crate::proofs::Numbered::orderly_fits, crate::proofs::Numbered::orderly_numbers))]
fn in_numbers(said: Verdict) -> [u32; 4]
    requires { Small said }
    ensures { result ≡ in_numbers said }
{
    match said {
        Verdict::Orderly(n) => [0, n as u32, 0, 0],
        Verdict::Knot(n) => [1, n as u32, 0, 0],
        Verdict::Dirty { reader, writer } => [3, u32::from(reader), u32::from(writer), 0],
        Verdict::No { line, why } => {
            [
                2,
                u32::from(u8::from(why)),
                line as u32,
                u32::from(field_of(why)),
            ]
        }
    }
}

// The verdict on a history text. Reader and writer of a dirty read, the order or the knot fill the buffer's first places; the rest stay, and after a refusal all stay.
pub fn judge_text(text: &[u8], order: &mut [u8]) -> Verdict
    ensures said { result ≡ (judgement_of text.now order.old).said }
    ensures order { order.new ≡ (judgement_of text.now order.old).order }
{
    judgement(text, order).said
}

// The same with the verdict in four numbers. The faulty line is handed back as the part of the text where it stands, without its newline; if none is faulty, an empty part at the text's start.
pub fn judge<'a>(text: &'a [u8], order: &mut [u8], answer: &mut [u32; 4]) -> &'a [u8]
    ensures line { result.now ≡ (judgement_of text.now order.old).line }
    ensures place { result.ref_ptr ≡ line_place text.entry.ref_ptr text.now order.old }
    ensures order { order.new ≡ (judgement_of text.now order.old).order }
    ensures answer { answer.new ≡ in_numbers (judgement_of text.now order.old).said }
{
    let Judged { said, place } = judgement(text, order);
    *answer = in_numbers(said);
    &text[place]
}

// The same for callers that cannot take a part of a text: tells where in the text the faulty line stands.
pub fn judge_at(text: &[u8], order: &mut [u8], answer: &mut [u32; 4]) -> LineAt
    ensures from { result.from ≡ line_from text.now (judgement_of text.now order.old).said }
    ensures length { result.length ≡ length (judgement_of text.now order.old).line }
    ensures order { order.new ≡ (judgement_of text.now order.old).order }
    ensures answer { answer.new ≡ in_numbers (judgement_of text.now order.old).said }
{
    let Judged { said, place } = judgement(text, order);
    *answer = in_numbers(said);
    LineAt {
        from: place.start,
        length: place.len(),
    }
}
