// Runs either desk on steps by numbers. The first input line is the first number. If a blank and a second number follow, as in `1 1`, the desk is the timestamp desk,
// whatever the second number is. Every other line is a step, `kind job cell`, or, on the lock desk only, a request for a chain, `256 job places`.
// Writes a line for each step: the answer's word and number, then `wake`, job, cell and the kind's byte for each wake, with tabs between.
// For a chain it writes `chain` and how many jobs, or `no` and the refusal, and then every place of the list.
#![tactic(auto)]

use conflict::action::{Action, Kind};
use desk_arrays::state::{Desk, Said};
use desk_chain::chain::chain;
use desks::Answer;
use stamp_arrays::state::Stamps;
use terms::letters::{INCREMENT, READ, WRITE};
use terms::refusals::Refusal;
use terms::words::{NEWLINE, TAB, Word, spelled};

// A number of the input, and the byte after it, if the input goes on.
#[derive(Clone, Copy)]
struct Field {
    value: u32,
    end: Option<u8>,
}

// An input line `kind job cell`.
#[derive(Clone, Copy)]
struct Line {
    kind: u32,
    job: u32,
    cell: u32,
}

// A desk that is asked line by line.
trait Asked {
    // Carries out a line, and writes what the desk says of it; tells whether the line asked for something and what was written was taken.
    fn take(&mut self, rt: &HostRuntime, line: Line) -> bool;
}

// Stands between the numbers of a line.
const BLANK: u8 = b' ';
// Stands for a request for a chain; a kind is at most 255.
const ASKS: u32 = 256;
// The most places lent for a list.
const MOST: usize = 64;
// What the list's first place holds before the call; each further place holds one more. No job here has such a number.
const BEFORE: u32 = 4_000_000_000;

// The next byte of the input, if there is one.
fn next_byte(rt: &HostRuntime) -> Option<u8> {
    let mut one = [0u8; 1];
    match streams::read(rt, &mut one) {
        Ok(0) => None,
        Ok(_) => Some(one[0]),
        Err(e) => {
            streams::fail(rt, "try_desk: cannot read", &e);
            None
        }
    }
}

// The next number: its digits up to the first byte that is no digit. A number that is too large becomes the largest. Nothing guarantees that the input ends, so the turns are counted.
fn next_number(rt: &HostRuntime) -> Field {
    let mut value: u32 = 0;
    for _ in 0..u64::MAX {
        match next_byte(rt) {
            Some(byte @ b'0'..=b'9') => {
                value = value
                    .saturating_mul(10)
                    .saturating_add(u32::from(byte - b'0'));
            }
            end => return Field { value, end },
        }
    }
    Field { value, end: None }
}

// The next line, if the input has one more.
fn next_line(rt: &HostRuntime) -> Option<Line> {
    let kind = next_number(rt);
    if !matches!(kind.end, Some(BLANK)) {
        return None;
    }
    let job = next_number(rt);
    let cell = next_number(rt);
    Some(Line {
        kind: kind.value,
        job: job.value,
        cell: cell.value,
    })
}

fn put(rt: &HostRuntime, bytes: &[u8]) {
    let _ = streams::write_all(rt, bytes);
}

// Writes the end of a line; tells whether it was taken.
fn put_end(rt: &HostRuntime) -> bool {
    match streams::write_all(rt, &[NEWLINE]) {
        Ok(()) => true,
        Err(e) => {
            streams::fail(rt, "try_desk: cannot write", &e);
            false
        }
    }
}

fn put_number(rt: &HostRuntime, n: u32) {
    put(rt, &[TAB]);
    let _ = print!(rt; "{n}");
}

// Writes an answer's word and number.
fn put_answer(rt: &HostRuntime, answer: Answer) {
    let (word, number) = match answer {
        Answer::Go(job) => (Word::Go, job),
        Answer::Wait(job) => (Word::Wait, job),
        Answer::Back(job) => (Word::Back, job),
        Answer::No(why) => (Word::No, u32::from(u8::from(why))),
    };
    put(rt, spelled(word));
    put_number(rt, number);
}

// Writes a wake.
fn put_wake(rt: &HostRuntime, a: Action) {
    put(rt, &[TAB]);
    put(rt, spelled(Word::Wake));
    put_number(rt, a.job);
    put_number(rt, a.cell);
    let kind = match a.kind {
        Kind::Read => READ,
        Kind::Write => WRITE,
        Kind::Increment => INCREMENT,
    };
    put_number(rt, u32::from(kind));
}

// Writes a step's line; tells whether it was taken.
fn put_said(rt: &HostRuntime, said: Said) -> bool {
    put_answer(rt, said.answer);
    for a in said.wakes.iter().take(said.count) {
        put_wake(rt, *a);
    }
    put_end(rt)
}

// A list before it is lent: each place holds a number of its own.
fn list_before() -> [u32; MOST] {
    let mut list = [BEFORE; MOST];
    for (i, place) in list.iter_mut().enumerate() {
        *place = BEFORE + i as u32;
    }
    list
}

// Writes how many jobs a chain has, or why there is none.
fn put_chained(rt: &HostRuntime, answer: Result<usize, Refusal>) {
    match answer {
        Ok(n) => {
            let _ = print!(rt; "chain\t{n}");
        }
        Err(why) => put_answer(rt, Answer::No(why)),
    }
}

// Asks for a job's chain, with this many places lent, at most 64; tells whether the line was taken.
fn ask(rt: &HostRuntime, d: Desk, job: u32, places: u32) -> bool {
    let mut list = list_before();
    let n = MOST.min(places as usize);
    let answer = chain(d, job, &mut list[..n]);
    put_chained(rt, answer);
    for number in &list[..n] {
        put_number(rt, *number);
    }
    put_end(rt)
}

// A step, or a request for a chain. Any other kind above 255 is no step.
impl Asked for Desk {
    fn take(&mut self, rt: &HostRuntime, line: Line) -> bool {
        if line.kind == ASKS {
            return ask(rt, *self, line.job, line.cell);
        }
        let Ok(kind) = u8::try_from(line.kind) else {
            return false;
        };
        let o = desk::step::step(*self, kind, line.job, line.cell);
        *self = o.desk;
        put_said(rt, o.said)
    }
}

// A step. A kind above 255 is no step, and nobody wakes.
impl Asked for Stamps {
    fn take(&mut self, rt: &HostRuntime, line: Line) -> bool {
        let Ok(kind) = u8::try_from(line.kind) else {
            return false;
        };
        let o = stamp_desk::step::step(*self, kind, line.job, line.cell);
        *self = o.stamps;
        put_answer(rt, o.answer);
        put_end(rt)
    }
}

// All the lines, up to the first that asks for nothing; or the refusal of the start. Nothing guarantees that the input ends, so the turns are counted.
fn answer_all<D: Asked + Drop>(rt: &HostRuntime, started: Result<D, Refusal>) {
    let mut desk = match started {
        Ok(desk) => desk,
        Err(why) => {
            put_answer(rt, Answer::No(why));
            put_end(rt);
            return;
        }
    };
    for _ in 0..u64::MAX {
        let Some(line) = next_line(rt) else {
            return;
        };
        if !desk.take(rt, line) {
            return;
        }
    }
}

// A blank behind the first number selects the timestamp desk; the second number itself does not matter.
fn main(rt: HostRuntime) {
    let first = next_number(&rt);
    if matches!(first.end, Some(BLANK)) {
        next_number(&rt);
        answer_all(&rt, Stamps::start(first.value));
    } else {
        answer_all(&rt, Desk::start(first.value));
    }
}
