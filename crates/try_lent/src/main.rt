// Keeps one desk for a whole text of requests and lends it to each of them: writes what `answers` and `stamp_answers` write, by the entries that take a desk as `&mut` (02, No. 7).
// The first byte of the input selects the desk: `t` the timestamp desk, any other byte the lock desk. The text begins behind it.
#![tactic(auto)]

ghost use Rattle.std.specs.Prelude.{◌≤◌};

use desk_arrays::state::{Desk, Said};
use desks::Answer;
use lent::night::{Requests, all_night};
use stamp_arrays::state::Stamps;
use terms::limits::REQUEST_LINES;
use terms::refusals::{Refusal, field_of};
use terms::words::Word;
use text::held::{read_held, torn_held};
use text::writer::write_answer;
use text_rules::Line;
use text_rules::splitter::Splitter;

// A desk that is kept for the whole text: how it is lent to a request, and how what it says is written out.
trait Kept {
    type Said;

    fn step_lent(&mut self, kind: u8, job: u32, cell: u32) -> Self::Said;

    // Writes the records of what it said; tells whether all were taken.
    fn put_said(rt: &HostRuntime, line: u64, said: Self::Said) -> bool;
}

// The next request: where the text comes from; how many lines may still be answered, this one included (0 if there is no request); what it asks; and its line.
#[derive(Clone, Copy)]
struct Asked<'a> {
    rt: &'a HostRuntime,
    left: u64,
    kind: u8,
    job: u32,
    cell: u32,
    splitter: Splitter,
}

// The first byte that selects the timestamp desk.
const STAMPS: u8 = b't';
// More bytes than any record has.
const ROOM: usize = 32;

// The next byte of the input, if there is one. Each program reads bytes by itself, since a public function for all could state nothing of what it returns.
fn next_byte(rt: &HostRuntime) -> Option<u8> {
    let mut one = [0u8; 1];
    match streams::read(rt, &mut one) {
        Ok(0) => None,
        Ok(_) => Some(one[0]),
        Err(e) => {
            streams::fail(rt, "try_lent: cannot read", &e);
            None
        }
    }
}

// The next line, cut byte by byte; an `Err` holds what was heard until the input ended or could not be read. Nothing guarantees that the input ends, so the turns are counted.
fn hear_line(rt: &HostRuntime, before: Splitter) -> Result<Splitter, Splitter> {
    let mut splitter = before;
    for _ in 0..u64::MAX {
        let Some(byte) = next_byte(rt) else {
            return Err(splitter);
        };
        splitter = splitter.cut(&[byte], 0).splitter;
        if splitter.ended {
            return Ok(splitter);
        }
    }
    Err(splitter)
}

// Writes out a record; tells whether it was taken.
fn put_out(rt: &HostRuntime, record: &[u8]) -> bool {
    match streams::write_all(rt, record) {
        Ok(()) => true,
        Err(e) => {
            streams::fail(rt, "try_lent: cannot write", &e);
            false
        }
    }
}

// Writes an answer record; tells whether it was taken.
fn put_record(rt: &HostRuntime, line: u64, word: Word, number: u64, fault: u64) -> bool {
    let mut out = [0u8; ROOM];
    match write_answer(&mut out, 0, line, word, number, fault) {
        Ok(at) => put_out(rt, &out[..at]),
        Err(_) => false,
    }
}

// Writes a refusal's record; tells whether it was taken.
fn put_no(rt: &HostRuntime, line: u64, why: Refusal) -> bool {
    put_record(
        rt,
        line,
        Word::No,
        u64::from(u8::from(why)),
        u64::from(field_of(why)),
    )
}

// Writes an answer's record; tells whether it was taken.
fn put_answer(rt: &HostRuntime, line: u64, answer: Answer) -> bool {
    match answer {
        Answer::Go(job) => put_record(rt, line, Word::Go, u64::from(job), 0),
        Answer::Wait(job) => put_record(rt, line, Word::Wait, u64::from(job), 0),
        Answer::Back(job) => put_record(rt, line, Word::Back, u64::from(job), 0),
        Answer::No(why) => put_no(rt, line, why),
    }
}

// What the lock desk says is an answer, and a record for each wake.
impl Kept for Desk {
    type Said = Said;

    fn step_lent(&mut self, kind: u8, job: u32, cell: u32) -> Said {
        lent::locks::step_lent(self, kind, job, cell)
    }

    fn put_said(rt: &HostRuntime, line: u64, said: Said) -> bool {
        let mut woken = said.wakes.iter().take(said.count);
        put_answer(rt, line, said.answer)
            && woken.all(|a| put_record(rt, line, Word::Wake, u64::from(a.job), 0))
    }
}

// On the timestamp desk nobody waits or wakes.
impl Kept for Stamps {
    type Said = Answer;

    fn step_lent(&mut self, kind: u8, job: u32, cell: u32) -> Answer {
        lent::stamps::step_lent(self, kind, job, cell)
    }

    fn put_said(rt: &HostRuntime, line: u64, said: Answer) -> bool {
        put_answer(rt, line, said)
    }
}

// No further request.
fn none(rt: &HostRuntime, splitter: Splitter) -> Asked<'_>
    ensures { result.left ≤ 0 }
{
    Asked {
        rt,
        left: 0,
        kind: 0,
        job: 0,
        cell: 0,
        splitter,
    }
}

// The input has ended: a line under way has no newline and is bad; there is no further request.
fn at_end(rt: &HostRuntime, s: Splitter) -> Asked<'_>
    ensures { result.left ≤ 0 }
{
    if !s.ended {
        put_no(rt, s.line, Refusal::BadLine(torn_held(s)));
    }
    none(rt, s)
}

// The next good line, with this many lines still to be answered. Bad lines before it are answered here, since the desk is not asked about them.
fn next_request(rt: &HostRuntime, before: Splitter, lines: u64) -> Asked<'_>
    ensures { result.left ≤ lines }
{
    let mut splitter = before;
    for done in 0..lines {
        splitter = match hear_line(rt, splitter) {
            Ok(s) => s,
            Err(s) => return at_end(rt, s),
        };
        match read_held(splitter) {
            Ok(Line { letter, job, cell }) => {
                return Asked {
                    rt,
                    left: lines - done,
                    kind: u8::from(letter),
                    job,
                    cell,
                    splitter,
                };
            }
            Err(field) => {
                if !put_no(rt, splitter.line, Refusal::BadLine(field)) {
                    return none(rt, splitter);
                }
            }
        }
    }
    none(rt, splitter)
}

// The requests of a text, which ask a desk one by one.
impl<D: Kept> Requests<D> for Asked<'_> {
    type Said = D::Said;

    ghost left_of = { λ asked. asked.left };

    fn left(&self) -> u64 {
        self.left
    }

    fn lend(&self, d: &mut D) -> D::Said {
        d.step_lent(self.kind, self.job, self.cell)
    }

    // Writes out what the desk said. The next request follows if all was taken and a line may still be answered.
    fn after(self, said: D::Said) -> Self {
        if D::put_said(self.rt, self.splitter.line, said) {
            next_request(self.rt, self.splitter, self.left.saturating_sub(1))
        } else {
            none(self.rt, self.splitter)
        }
    }
}

// One desk, lent to every request of the text.
fn serve<D: Kept + Drop>(rt: &HostRuntime, desk: D) {
    let first = next_request(rt, Splitter::started(), REQUEST_LINES);
    all_night(desk, first);
}

fn main(rt: HostRuntime) {
    if matches!(next_byte(&rt), Some(STAMPS)) {
        serve(&rt, Stamps::first());
    } else {
        serve(&rt, Desk::first());
    }
}
