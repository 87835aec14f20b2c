// Runs the judge by cases: a line `= N` opens a case, the lines up to the next such line are its history, and N places of a buffer are lent for the order.
// For each case, writes the verdict's line, then the line handed back, if any, and `!` if the buffer is not as told or two of the judge's entries differ.
#![tactic(auto)]

ghost use Rattle.std.specs.Prelude.{◌≡◌, ◌+◌, ◌≤◌, length};
ghost use Rattle.terms.specs.Limits.{judged_bytes};

use judge::entry::{judge, judge_text};
use judge_line::verdict::write_verdict;
use judge_rules::verdict::Verdict;
use std::io;
use terms::limits::JUDGED_BYTES;
use terms::refusals::{Refusal, field_of};
use terms::words::NEWLINE;

// As many bytes are read at once.
const BUFFER: usize = 65_536;

// More bytes than a verdict's line has.
const ROOM: usize = 4_096;

// The most places lent.
const ORDER_PLACES: usize = 300;

// What every place holds before the judge is called.
const UNTOUCHED: u8 = 170;

// The first byte of a header line.
const MARK: u8 = b'=';

// One byte more than a text may have: enough of a longer text to refuse it.
const KEPT: usize = JUDGED_BYTES + 1;

// Where the next byte stands: at the start of a line, further on in a line of the text, or in a header line, whose digits so far make a number.
#[derive(Clone, Copy)]
enum Spot {
    First,
    Further,
    Header(usize),
}

// The case under way: the number in its header, once that has ended; where the next byte stands; and its text, as far as there is room.
#[derive(Clone, Copy)]
struct Case {
    lent: Option<usize>,
    spot: Spot,
    text: [u8; KEPT],
    len: usize,
    ghost kept: { (length text ≡ judged_bytes + 1) × (len ≤ judged_bytes + 1) },
}

fn put_bytes(rt: &HostRuntime, bytes: &[u8]) {
    if let Err(e) = streams::write_all(rt, bytes) {
        streams::fail(rt, "try_judge: cannot write", &e);
    }
}

fn put_mark(rt: &HostRuntime) {
    let _ = streams::write_all(rt, b"!\n");
}

// Writes the verdict's line.
#[tactic(auto, using(text_rules::proofs::WriterLaws::next_told))]
fn put_verdict(rt: &HostRuntime, said: Verdict, order: &[u8; ORDER_PLACES]) {
    let mut out = [0u8; ROOM];
    match write_verdict(said, order, &mut out) {
        Ok(next) => put_bytes(rt, &out[0..next]),
        Err(_) => put_mark(rt),
    }
}

// Writes the line handed back.
fn put_line(rt: &HostRuntime, line: &[u8]) {
    let _ = streams::write_all(rt, b"line\t");
    let _ = streams::write_all(rt, line);
    let _ = streams::write_all(rt, &[NEWLINE]);
}

// How many places a verdict fills.
fn told_places(said: Verdict) -> usize {
    match said {
        Verdict::Orderly(n) | Verdict::Knot(n) => n,
        Verdict::Dirty { .. } => 2,
        Verdict::No { .. } => 0,
    }
}

// The four numbers of a verdict, the case first, and last the field at fault of refusal 9.
fn numbers_of(said: Verdict) -> [usize; 4] {
    match said {
        Verdict::Orderly(n) => [0, n, 0, 0],
        Verdict::Knot(n) => [1, n, 0, 0],
        Verdict::Dirty { reader, writer } => [3, usize::from(reader), usize::from(writer), 0],
        Verdict::No { line, why } => {
            let number = usize::from(u8::from(why));
            [2, number, line, usize::from(field_of(why))]
        }
    }
}

// Whether a verdict in numbers is the verdict.
fn same_verdict(said: Verdict, numbers: [u32; 4]) -> bool {
    numbers.map(|n| n as usize) == numbers_of(said)
}

// Whether reader and writer of a dirty read stand in the first two places.
fn pair_stands(said: Verdict, order: &[u8; ORDER_PLACES]) -> bool {
    match said {
        Verdict::Dirty { reader, writer } => order.starts_with(&[reader, writer]),
        _ => true,
    }
}

// Whether two buffers agree and all places but the first n are untouched.
fn rest_stays(one: &[u8; ORDER_PLACES], other: &[u8; ORDER_PLACES], n: usize) -> bool {
    one == other && one.iter().skip(n).all(|place| *place == UNTOUCHED)
}

// Calls two of the judge's entries on a text, each with its own buffer, of which this many places are lent, or all if it has fewer; and writes what they say.
fn report(rt: &HostRuntime, text: &[u8], places: usize) {
    let lent = places.min(ORDER_PLACES);
    let mut order = [UNTOUCHED; ORDER_PLACES];
    let said = judge_text(text, &mut order[..lent]);
    put_verdict(rt, said, &order);
    let mut again = [UNTOUCHED; ORDER_PLACES];
    let mut answer = [0; 4];
    let line = judge(text, &mut again[..lent], &mut answer);
    if answer[0] == 2 && answer[2] > 0 {
        put_line(rt, line);
    }
    if !(same_verdict(said, answer)
        && pair_stands(said, &order)
        && rest_stays(&order, &again, told_places(said)))
    {
        put_mark(rt);
    }
}

// The number of a header with one more digit, at most that of all places.
fn with_digit(number: usize, digit: u8) -> usize
    requires { 48 ≤ digit }
    ensures { result ≤ 300 }
{
    number
        .saturating_mul(10)
        .saturating_add(usize::from(digit - b'0'))
        .min(ORDER_PLACES)
}

impl Case {
    // Before the first header.
    fn none() -> Self {
        Self {
            lent: None,
            spot: Spot::First,
            text: [0; KEPT],
            len: 0,
        }
    }

    // Tells of a case that has ended: a text that is too long is refused before anything else.
    fn close(&self, rt: &HostRuntime) {
        let Some(places) = self.lent else {
            return;
        };
        if self.len > JUDGED_BYTES {
            let said = Verdict::No {
                line: 0,
                why: Refusal::TooLong,
            };
            put_verdict(rt, said, &[UNTOUCHED; ORDER_PLACES]);
            return;
        }
        report(rt, &self.text[..self.len], places);
    }

    // Takes a byte of a header: the newline that ends it, a digit, or a byte to skip.
    fn in_header(&mut self, number: usize, byte: u8) {
        if byte == NEWLINE {
            self.lent = Some(number);
            self.spot = Spot::First;
        } else if byte.is_ascii_digit() {
            self.spot = Spot::Header(with_digit(number, byte));
        }
    }

    // Takes a byte of the text, and keeps it if there is room.
    fn in_text(&mut self, byte: u8) {
        if self.len < KEPT {
            self.text[self.len] = byte;
            self.len += 1;
        }
        self.spot = if byte == NEWLINE {
            Spot::First
        } else {
            Spot::Further
        };
    }

    // Takes one byte of the input.
    fn take_byte(&mut self, rt: &HostRuntime, byte: u8) {
        match self.spot {
            Spot::Header(number) => self.in_header(number, byte),
            Spot::First if byte == MARK => {
                self.close(rt);
                self.lent = None;
                self.len = 0;
                self.spot = Spot::Header(0);
            }
            _ => self.in_text(byte),
        }
    }

    // Takes the bytes of a chunk, one after another.
    fn take_chunk(&mut self, rt: &HostRuntime, chunk: &[u8]) {
        for byte in chunk {
            self.take_byte(rt, *byte);
        }
    }
}

// Reads chunk after chunk. Nothing guarantees that the input ends, so the loop counts more turns than any run uses.
fn take_all(rt: &HostRuntime, input: &mut [u8], case: &mut Case) -> io::Result<()> {
    for _ in 0..u64::MAX {
        let n = streams::read(rt, input)?;
        if n == 0 {
            break;
        }
        case.take_chunk(rt, &input[..n]);
    }
    Ok(())
}

fn main(rt: HostRuntime) {
    let mut input = [0u8; BUFFER];
    let mut case = Case::none();
    if let Err(e) = take_all(&rt, &mut input, &mut case) {
        streams::fail(&rt, "try_judge: cannot read", &e);
    }
    case.close(&rt);
}
