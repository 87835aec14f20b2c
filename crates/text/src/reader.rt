// The line reader: what one line of requests or of a history says, field by field (01, Lines; 02, No. 5).
ghost use Rattle.std.specs.Prelude.{◌≡◌, ◌≤◌, Ok, drop, length};
ghost use Rattle.terms.specs.Letters.{of_requests, of_histories};
ghost use Rattle.text_rules.specs.Lines.{parts, is_digit, shortest, ending, cell_part, job_part, read_line};
ghost use Rattle.text_rules.specs.Fields.{digits_of, digit_ahead, end_ahead, first_letter, digits_at, number_at, lacking};

use terms::limits::LAST_NUMBER;
use terms::words::{NEWLINE, TAB};
use terms::{Field, Letter, has_cell, has_job, letter_of, of_histories, of_requests};
use text_rules::{Line, Numeral, Reading};

// A cell has one or two digits.
const LAST_CELL: u32 = 99;

// Whether a byte is a digit, as the definition of a line has it.
#[tactic(auto, unfolding(text_rules::specs::Lines::is_digit))]
fn is_digit(byte: u8) -> bool
    ensures { result ≡ is_digit byte }
{
    byte.is_ascii_digit()
}

// Whether the byte ends a field: a tab or a newline.
#[tactic(auto, unfolding(text_rules::specs::Lines::parts))]
fn ends_field(byte: u8) -> bool
    ensures { result ≡ parts byte }
{
    matches!(byte, TAB | NEWLINE)
}

// Whether a field ends just before this place: a tab, a newline or the end of the line is there.
#[tactic(auto, using(text_rules::proofs::Places::end_placed))]
fn end_ahead(line: &[u8], at: usize) -> bool
    ensures { result ≡ end_ahead (drop at line.now) }
{
    line.get(at).is_none_or(|byte| ends_field(*byte))
}

// Whether there is a digit at this place.
#[tactic(auto, using(text_rules::proofs::Places::digit_placed))]
fn digit_ahead(line: &[u8], at: usize) -> bool
    ensures { result ≡ digit_ahead (drop at line.now) }
{
    line.get(at).is_some_and(|byte| is_digit(*byte))
}

// Whether there is a digit at this place, and no leading zero except the single 0.
#[tactic(auto, using(text_rules::proofs::Places::shortest_placed))]
fn shortest_at(line: &[u8], from: usize) -> bool
    ensures { result ≡ shortest (digits_of (drop from line.now)) }
{
    match line.get(from) {
        Some(first) => is_digit(*first) && (*first != b'0' || !digit_ahead(line, from + 1)),
        None => false,
    }
}

// The number that the digits from this place on spell, if they fill their field; stops as soon as the number is above `most`.
#[tactic(auto, using(text_rules::proofs::Digits::digit_bounds, text_rules::proofs::Digits::digits_over, text_rules::proofs::Digits::more_here, text_rules::proofs::Digits::stop_here, text_rules::proofs::Digits::stop_past, text_rules::proofs::Digits::torn_here))]
fn digits_at(line: &[u8], from: usize, most: u32) -> Option<Numeral>
    requires { from ≤ length line.now }
    ensures { result ≡ digits_at most 0 from (drop from line.now) }
{
    let mut value: u32 = 0;
    for next in from..line.len() {
        let byte = line[next];
        if !is_digit(byte) {
            return ends_field(byte).then_some(Numeral { value, next });
        }
        let more = u64::from(value) * 10 + u64::from(byte - b'0');
        if more > u64::from(most) {
            return None;
        }
        value = more as u32;
    }
    Some(Numeral {
        value,
        next: line.len(),
    })
}

// The number field at this place: a tab, then digits of a number up to `most`, and nothing else.
#[tactic(auto, using(text_rules::proofs::Places::number_placed))]
fn number_at(line: &[u8], from: usize, most: u32) -> Option<Numeral>
    ensures { result ≡ number_at most from (drop from line.now) }
{
    match line.get(from) {
        Some(&TAB) if shortest_at(line, from + 1) => digits_at(line, from + 1, most),
        _ => None,
    }
}

// The good line given, if exactly one newline is left of the line that is read.
#[tactic(auto, unfolding(text_rules::specs::Lines::ending))]
fn ending_at(line: &[u8], from: usize, good: Line) -> Reading
    ensures { result ≡ ending (drop from line.now) (Ok good) }
{
    match line.get(from..) {
        Some([NEWLINE]) => Ok(good),
        _ => Err(Field::Fourth),
    }
}

// The rest of a line after letter and job: the cell, if the letter has one, and the end.
#[tactic(auto, using(crate::proofs::LineParts::cell_missing, crate::proofs::LineParts::cell_none, crate::proofs::LineParts::cell_read))]
fn cell_part(line: &[u8], from: usize, letter: Letter, job: u32) -> Reading
    ensures { result ≡ cell_part letter job (drop from line.now) }
{
    if !has_cell(letter) {
        let good = Line {
            letter,
            job,
            cell: 0,
        };
        return ending_at(line, from, good);
    }
    let cell = number_at(line, from, LAST_CELL).ok_or(Field::Third)?;
    let good = Line {
        letter,
        job,
        cell: cell.value,
    };
    ending_at(line, cell.next, good)
}

// The rest of a line after its letter: the job, if the letter has one, and what follows.
#[tactic(auto, using(crate::proofs::LineParts::job_missing, crate::proofs::LineParts::job_none, crate::proofs::LineParts::job_read))]
fn job_part(line: &[u8], letter: Letter) -> Reading
    ensures { result ≡ job_part letter (drop 1 line.now) }
{
    if !has_job(letter) {
        return cell_part(line, 1, letter, 0);
    }
    let job = number_at(line, 1, LAST_NUMBER).ok_or(Field::Second)?;
    cell_part(line, job.next, letter, job.value)
}

// The line's first letter, if its field ends right after it.
#[tactic(auto, using(text_rules::proofs::Places::letter_placed))]
fn first_letter(line: &[u8]) -> Option<Letter>
    ensures { result ≡ first_letter line.now }
{
    match line.first() {
        Some(first) if end_ahead(line, 1) => letter_of(*first),
        _ => None,
    }
}

// What a request line says. This and the reader of histories differ in the guard alone; a function that takes the guard would be no shorter. The attribute stands for the reason that `read_held` has.
#[tactic(auto, using(crate::proofs::LineParts::line_other, crate::proofs::LineParts::line_read, crate::proofs::LineParts::line_unknown))]
#[inline(always)]
pub fn read_request(line: &[u8]) -> Reading
    ensures { result ≡ read_line of_requests line.now }
{
    match first_letter(line) {
        Some(letter) if of_requests(letter) => job_part(line, letter),
        _ => Err(Field::First),
    }
}

// What a history line says.
#[tactic(auto, using(crate::proofs::LineParts::line_other, crate::proofs::LineParts::line_read, crate::proofs::LineParts::line_unknown))]
pub fn read_history(line: &[u8]) -> Reading
    ensures { result ≡ read_line of_histories line.now }
{
    match first_letter(line) {
        Some(letter) if of_histories(letter) => job_part(line, letter),
        _ => Err(Field::First),
    }
}

// The field at fault of a line that has no newline, by how its bytes read: of a good line it is the end.
#[tactic(auto, unfolding(text_rules::specs::Fields::lacking))]
pub(crate) fn lacking(reading: Reading) -> Field
    ensures { result ≡ lacking reading }
{
    match reading {
        Ok(_) => Field::Fourth,
        Err(field) => field,
    }
}

// The field at fault of a request line that has no newline.
pub fn torn_request(line: &[u8]) -> Field
    ensures { result ≡ lacking (read_line of_requests line.now) }
{
    lacking(read_request(line))
}
