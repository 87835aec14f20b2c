// The record writer: puts one record into a lent buffer, from the place given and not before it (01, Lines).
// The buffer's part from that place on is lent, and its later part to one field writer after another; each writes from the first byte of its part.
ghost use Rattle.std.specs.Prelude.{◌≡◌, ℕ, true, [], ◌∷◌, ◌++◌, ◌+◌, ◌≤◌, ◌<◌, leb, length};
ghost use Rattle.terms.specs.Letters.{has_job, has_cell};
ghost use Rattle.terms.specs.Words.{tab, newline, spelt};
ghost use Rattle.text_rules.specs.Decimal.{decimal};
ghost use Rattle.text_rules.specs.Wrote.{Wrote};
ghost use Rattle.text_rules.specs.Records.{field, answer_record, line_record, told, left};

use std::marker::Model;
use terms::words::{NEWLINE, TAB};
use terms::{Letter, Refusal, Word, has_cell, has_job, spelled};

// How many digits a number has in shortest decimal: four at a time, then the few that are left. What is left of the number is tested, and there is no index to count.
#[tactic(auto, using(text_rules::proofs::DigitLaws::counting_first))]
pub fn width(n: u64) -> usize
    ensures { result ≡ length (decimal n) }
{
    let mut w: usize = 1;
    let mut rest = n;
    while rest >= 10_000 {
        rest = rest / 10_000;
        w += 4;
    }
    if rest < 10 {
        return w;
    }
    if rest < 100 {
        return w + 1;
    }
    if rest < 1_000 {
        return w + 2;
    }
    w + 3
}

// A number, with its count of digits in shortest decimal.
#[derive(Clone, Copy)]
struct Number {
    value: u64,
    digits: usize,
}

// In contracts it is the number.
impl Model for Number {
    ghost Value = { ℕ };

    ghost view = { λ n. n.value };

    ghost invariant = { λ n. n.digits ≡ length (decimal n.value) };

    ghost inverse = { λ n. record { value = n; digits = length (decimal n) } };
}

impl Number {
    fn new(value: u64) -> Self
        ensures { result ≡ value }
    {
        Number {
            value,
            digits: width(value),
        }
    }

    // The number of a field that may not be there; the digits of one that is not there are not counted.
    #[tactic(auto, using(text_rules::proofs::FieldLaws::field_none))]
    fn of_field(there: bool, value: u64) -> Self
        ensures { field there result ≡ field there value }
    {
        Number::new(if there { value } else { 0 })
    }

    fn value(self) -> u64
        ensures { result ≡ self }
    {
        self.value
    }

    fn digits(self) -> usize
        ensures { result ≡ length (decimal self) }
    {
        self.digits
    }
}

// How many bytes a further field takes: a tab and the number, if the field is there. Whether it is there stands beside the number, as in the definition `field`.
#[tactic(auto, using(text_rules::proofs::DigitLaws::decimal_at_most_20, text_rules::proofs::FieldLaws::field_length, text_rules::proofs::FieldLaws::no_field_length))]
fn field_width(there: bool, n: Number) -> usize
    ensures { result ≡ length (field there n) }
{
    if there { n.digits() + 1 } else { 0 }
}

// Whether `len` bytes fit from place `at` on; no sum here can wrap.
pub fn has_room(room: usize, at: usize, len: usize) -> bool
    ensures { result ≡ leb (at + len) room }
{
    at <= room && len <= room - at
}

// Writes one byte.
fn put_byte(part: &mut [u8], byte: u8) -> usize
    requires { 1 ≤ length part.old }
    ensures { Wrote 0 result (byte ∷ []) part.old part.new }
{
    part[0] = byte;
    1
}

// Writes a number, from its last digit to its first.
#[tactic(auto, using(text_rules::proofs::DigitLaws::all_to_write))]
fn put_number(part: &mut [u8], n: Number) -> usize
    requires { length (decimal n) ≤ length part.old }
    ensures { Wrote 0 result (decimal n) part.old part.new }
{
    let digits = n.digits();
    let mut rest = n.value();
    for i in (0..digits).rev() {
        part[i] = b'0' + (rest % 10) as u8;
        rest /= 10;
    }
    digits
}

// Writes a further field: a tab and the number, if the field is there.
#[tactic(auto, using(text_rules::proofs::FieldLaws::field_none, text_rules::proofs::FieldLaws::field_there))]
fn put_field(part: &mut [u8], there: bool, n: Number) -> usize
    requires { length (field there n) ≤ length part.old }
    ensures { Wrote 0 result (field there n) part.old part.new }
{
    if there {
        part[0] = TAB;
        1 + put_number(&mut part[1..], n)
    } else {
        0
    }
}

// Writes a word.
fn put_word(part: &mut [u8], word: Word) -> usize
    requires { length (spelt word) ≤ length part.old }
    ensures { Wrote 0 result (spelt word) part.old part.new }
{
    let spelling = spelled(word);
    let len = spelling.len();
    part[..len].copy_from_slice(spelling);
    len
}

// Writes a word as a further field: a tab and the word.
fn put_second(part: &mut [u8], word: Word) -> usize
    requires { length (spelt word) < length part.old }
    ensures { Wrote 0 result (tab ∷ spelt word) part.old part.new }
{
    let a = put_byte(part, TAB);
    a + put_word(&mut part[a..], word)
}

// Writes the last field, if it is there, and the newline that ends the record.
fn put_last(part: &mut [u8], there: bool, n: Number) -> usize
    requires { length (field there n) < length part.old }
    ensures { Wrote 0 result (field there n ++ newline ∷ []) part.old part.new }
{
    let end = put_field(part, there, n);
    part[end] = NEWLINE;
    end + 1
}

// Writes an answer record: each field goes into the part after the one before.
#[tactic(auto, using(text_rules::proofs::Length::answer_length))]
fn put_answer(part: &mut [u8], line: Number, word: Word, number: Number, fault: Number) -> usize
    requires { length (answer_record line word number fault) ≤ length part.old }
    ensures { Wrote 0 result (answer_record line word number fault) part.old part.new }
{
    let a = put_number(part, line);
    let b = a + put_second(&mut part[a..], word);
    let c = b + put_field(&mut part[b..], true, number);
    c + put_last(&mut part[c..], 0 < fault.value(), fault)
}

// Writes the line of a letter: each field goes into the part after the one before.
#[tactic(auto, using(text_rules::proofs::Length::line_length))]
fn put_line(part: &mut [u8], letter: Letter, job: Number, cell: Number) -> usize
    requires { length (line_record letter job cell) ≤ length part.old }
    ensures { Wrote 0 result (line_record letter job cell) part.old part.new }
{
    let a = put_byte(part, u8::from(letter));
    let b = a + put_field(&mut part[a..], has_job(letter), job);
    b + put_last(&mut part[b..], has_cell(letter), cell)
}

// Each function for callers asks whether its bytes fit, and then writes them. One function that takes the writing as a closure would be no shorter: its contract would have to name the bytes.
// Writes an answer record: request line number, word, number, and one field more if the fourth number is not 0.
#[tactic(auto, using(crate::proofs::WordLaws::word_at_most_7, text_rules::proofs::DigitLaws::decimal_at_most_20, text_rules::proofs::FieldLaws::field_at_most_21, text_rules::proofs::Length::answer_length))]
pub fn write_answer(
    buf: &mut [u8],
    at: usize,
    line: u64,
    word: Word,
    number: u64,
    fault: u64,
) -> Result<usize, Refusal>
    ensures { (result ≡ told buf.old at (answer_record line word number fault)) × (buf.new ≡ left buf.old at (answer_record line word number fault)) }
{
    let first = Number::new(line);
    let third = Number::new(number);
    let fourth = Number::new(fault);
    let further = field_width(true, third) + field_width(0 < fault, fourth);
    let len = first.digits() + spelled(word).len() + further + 2;
    if !has_room(buf.len(), at, len) {
        return Err(Refusal::NoRoom);
    }
    Ok(at + put_answer(&mut buf[at..], first, word, third, fourth))
}

// Writes the line of a letter with the fields that it has: a history record, or a request.
#[tactic(auto, using(text_rules::proofs::FieldLaws::field_at_most_21, text_rules::proofs::Length::line_length))]
pub fn write_line(
    buf: &mut [u8],
    at: usize,
    letter: Letter,
    job: u64,
    cell: u64,
) -> Result<usize, Refusal>
    ensures { (result ≡ told buf.old at (line_record letter job cell)) × (buf.new ≡ left buf.old at (line_record letter job cell)) }
{
    let second = Number::of_field(has_job(letter), job);
    let third = Number::of_field(has_cell(letter), cell);
    let len = field_width(has_job(letter), second) + field_width(has_cell(letter), third) + 2;
    if !has_room(buf.len(), at, len) {
        return Err(Refusal::NoRoom);
    }
    Ok(at + put_line(&mut buf[at..], letter, second, third))
}

// Writes a word alone: the start of a verdict line.
pub fn write_word(buf: &mut [u8], at: usize, word: Word) -> Result<usize, Refusal>
    ensures { (result ≡ told buf.old at (spelt word)) × (buf.new ≡ left buf.old at (spelt word)) }
{
    if !has_room(buf.len(), at, spelled(word).len()) {
        return Err(Refusal::NoRoom);
    }
    Ok(at + put_word(&mut buf[at..], word))
}

// Writes a number alone, in shortest decimal: the start of a line of jobs.
pub fn write_number(buf: &mut [u8], at: usize, n: u64) -> Result<usize, Refusal>
    ensures { (result ≡ told buf.old at (decimal n)) × (buf.new ≡ left buf.old at (decimal n)) }
{
    let number = Number::new(n);
    if !has_room(buf.len(), at, number.digits()) {
        return Err(Refusal::NoRoom);
    }
    Ok(at + put_number(&mut buf[at..], number))
}

// Writes a further field alone: a tab and the number.
pub fn write_field(buf: &mut [u8], at: usize, n: u64) -> Result<usize, Refusal>
    ensures { (result ≡ told buf.old at (tab ∷ decimal n)) × (buf.new ≡ left buf.old at (tab ∷ decimal n)) }
{
    let number = Number::new(n);
    if !has_room(buf.len(), at, field_width(true, number)) {
        return Err(Refusal::NoRoom);
    }
    Ok(at + put_field(&mut buf[at..], true, number))
}

// Writes the newline that ends a line.
pub fn write_end(buf: &mut [u8], at: usize) -> Result<usize, Refusal>
    ensures { (result ≡ told buf.old at (newline ∷ [])) × (buf.new ≡ left buf.old at (newline ∷ [])) }
{
    if !has_room(buf.len(), at, 1) {
        return Err(Refusal::NoRoom);
    }
    Ok(at + put_byte(&mut buf[at..], NEWLINE))
}
