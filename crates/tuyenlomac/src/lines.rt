// Lines in and records out, in numbers: the line reader and the record writer (01, Lines; 02, No. 5).
ghost use Rattle.std.specs.Prelude.{◌≡◌, [], ◌∷◌};
ghost use Rattle.terms.specs.Letters.{letter_of, of_requests, of_histories};
ghost use Rattle.text_rules.specs.Lines.{read_line};
ghost use Rattle.tuyenlomac.specs.Numbers.{word_at};
ghost use Rattle.tuyenlomac.specs.Texts.{line_in, written_numbers, answer_bytes, line_bytes, told_of, left_of};

use terms::letters::letter_of;
use terms::refusals::Refusal;
use terms::words::Word;
use text::reader::{read_history, read_request};
use text::writer::{write_answer, write_line};
use text_rules::Reading;

// What a line says. For a good line `field` is 0 and `kind` is its letter's byte; `job` and `cell` are 0 if the letter has none. For a bad line `field` is the field at fault, 1 to 4, and the others are 0.
#[repr(C)]
#[derive(Clone, Copy)]
pub struct Line {
    pub job: u32,
    pub cell: u32,
    pub kind: u8,
    pub field: u8,
}

// What writing tells: 0 and the place after the record, or the refusal's number and 0.
#[repr(C)]
#[derive(Clone, Copy)]
pub struct Placed {
    pub refusal: u32,
    pub next: usize,
}

// The word of answer records that has a number, or none. It is no `TryFrom`, since neither type is of this crate.
fn word_at(n: u32) -> Option<Word>
    ensures { result ≡ word_at n }
{
    match n {
        0 => Some(Word::Go),
        1 => Some(Word::Wait),
        2 => Some(Word::Back),
        3 => Some(Word::No),
        4 => Some(Word::Wake),
        _ => None,
    }
}

// What a line says, in numbers.
impl From<Reading> for Line {
    ghost from_gives = { λ r line. line ≡ line_in r };

    #[tactic(auto, unfolding(crate::specs::Texts::line_in))]
    fn from(r: Reading) -> Line {
        match r {
            Ok(good) => Line {
                job: good.job,
                cell: good.cell,
                kind: u8::from(good.letter),
                field: 0,
            },
            Err(field) => Line {
                job: 0,
                cell: 0,
                kind: 0,
                field: u8::from(field),
            },
        }
    }
}

// What writing tells, in two numbers.
impl From<Result<usize, Refusal>> for Placed {
    ghost from_gives = { λ w placed. (placed.refusal ∷ placed.next ∷ []) ≡ written_numbers w };

    #[tactic(auto, unfolding(crate::specs::Texts::written_numbers))]
    fn from(w: Result<usize, Refusal>) -> Placed {
        match w {
            Ok(next) => Placed { refusal: 0, next },
            Err(why) => Placed {
                refusal: u32::from(u8::from(why)),
                next: 0,
            },
        }
    }
}

// What a line of requests says; the line comes with its newline.
pub fn tuyenlomac_read_request(line: &[u8]) -> Line
    ensures { result ≡ line_in (read_line of_requests line.now) }
{
    Line::from(read_request(line))
}

// What a line of a history says; the line comes with its newline.
pub fn tuyenlomac_read_history(line: &[u8]) -> Line
    ensures { result ≡ line_in (read_line of_histories line.now) }
{
    Line::from(read_history(line))
}

// Writes an answer record from a place: 1 if no word has that number, then 15 if the record does not fit; after either every byte stays.
#[tactic(auto, unfolding(crate::specs::Texts::answer_bytes, crate::specs::Texts::left_of, crate::specs::Texts::told_of))]
pub fn tuyenlomac_write_answer(
    buffer: &mut [u8],
    at: usize,
    line: u64,
    word: u32,
    number: u64,
    field: u64,
) -> Placed
    ensures said { (result.refusal ∷ result.next ∷ []) ≡ written_numbers (told_of buffer.old at (answer_bytes line (word_at word) number field)) }
    ensures buffer { buffer.new ≡ left_of buffer.old at (answer_bytes line (word_at word) number field) }
{
    match word_at(word) {
        Some(w) => Placed::from(write_answer(buffer, at, line, w, number, field)),
        None => Placed::from(Err(Refusal::UnknownKind)),
    }
}

// Writes the line of a letter from a place, a history record or a request: 1 if no letter has that byte, then 15 if the line does not fit; after either every byte stays.
#[tactic(auto, unfolding(crate::specs::Texts::left_of, crate::specs::Texts::line_bytes, crate::specs::Texts::told_of))]
pub fn tuyenlomac_write_line(buffer: &mut [u8], at: usize, kind: u8, job: u64, cell: u64) -> Placed
    ensures said { (result.refusal ∷ result.next ∷ []) ≡ written_numbers (told_of buffer.old at (line_bytes (letter_of kind) job cell)) }
    ensures buffer { buffer.new ≡ left_of buffer.old at (line_bytes (letter_of kind) job cell) }
{
    match letter_of(kind) {
        Some(l) => Placed::from(write_line(buffer, at, l, job, cell)),
        None => Placed::from(Err(Refusal::UnknownKind)),
    }
}
