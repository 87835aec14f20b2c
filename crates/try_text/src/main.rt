// Prints what both line readers say of every line of standard input (01, Lines).
#![tactic(auto)]

ghost use Rattle.std.specs.Prelude.{◌≤◌, length};
ghost use Rattle.text_rules.specs.Split.{Sized};

use terms::{Field, Letter, Refusal, Word, has_cell, has_job};
use text::{read_history, read_request, write_answer, write_line};
use text_rules::{Line, Splitter};

// As many bytes are read at once, and as many have room before they are written out.
const BUFFER: usize = 65_536;

// The records of one line take fewer bytes than this, whatever its number.
const ROOM: usize = 128;

// The line under way, and the place in the output after the last record. That the splitter keeps its sizes stands in clauses: as a ghost field it was no plainer, since a loop that changes the struct loses the field, and both loops here would state the fact again.
#[derive(Clone, Copy)]
struct Progress {
    splitter: Splitter,
    at: usize,
}

// Writes an answer record; returns the place after it. A record that does not fit is left out, and the place stays.
#[tactic(auto, using(text::proofs::Placed::placed))]
fn answer(out: &mut [u8], at: usize, line: u64, word: Word, number: u64, fault: u64) -> usize
    requires { at ≤ length out.old }
    ensures { result ≤ length out.new }
{
    write_answer(out, at, line, word, number, fault).unwrap_or(at)
}

// Writes the record of a line that a reader calls bad: refusal 9 and the field at fault.
fn bad(out: &mut [u8], at: usize, line: u64, word: Word, field: Field) -> usize
    requires { at ≤ length out.old }
    ensures { result ≤ length out.new }
{
    let number = u8::from(Refusal::BadLine(field));
    let fault = u8::from(field);
    answer(out, at, line, word, u64::from(number), u64::from(fault))
}

// Writes the records of a good request line: its letter's byte, then its job and its cell, if it has them.
fn good_request(out: &mut [u8], at: usize, line: u64, said: Line) -> usize
    requires { at ≤ length out.old }
    ensures { result ≤ length out.new }
{
    let letter = said.letter;
    let mut next = answer(out, at, line, Word::Go, u64::from(u8::from(letter)), 0);
    if has_job(letter) {
        next = answer(out, next, line, Word::Wait, u64::from(said.job), 0);
    }
    if has_cell(letter) {
        next = answer(out, next, line, Word::Back, u64::from(said.cell), 0);
    }
    next
}

// Writes a good history line as a history record.
#[tactic(auto, using(text::proofs::Placed::placed))]
fn good_history(out: &mut [u8], at: usize, said: Line) -> usize
    requires { at ≤ length out.old }
    ensures { result ≤ length out.new }
{
    write_line(
        out,
        at,
        said.letter,
        u64::from(said.job),
        u64::from(said.cell),
    )
    .unwrap_or(at)
}

// Writes what both readers say of a line: the reader of requests, and then that of histories.
fn said(out: &mut [u8], at: usize, line: u64, bytes: &[u8]) -> usize
    requires { at ≤ length out.old }
    ensures { result ≤ length out.new }
{
    let next = match read_request(bytes) {
        Ok(good) => good_request(out, at, line, good),
        Err(field) => bad(out, at, line, Word::No, field),
    };
    match read_history(bytes) {
        Ok(good) => good_history(out, next, good),
        Err(field) => bad(out, next, line, Word::Wake, field),
    }
}

// Writes out what stands before this place.
fn flush(rt: &HostRuntime, out: &[u8], at: usize)
    requires { at ≤ length out.now }
{
    if let Err(e) = streams::write_all(rt, &out[..at]) {
        streams::fail(rt, "try_text: cannot write", &e);
    }
}

// One read of the input; returns how many bytes came.
fn read_some(rt: &HostRuntime, input: &mut [u8]) -> usize
    ensures { result ≤ length input.new }
{
    match streams::read(rt, input) {
        Ok(n) => n,
        Err(e) => {
            streams::fail(rt, "try_text: cannot read", &e);
            0
        }
    }
}

// A place from which a line's records fit: the place given, or 0 after all before it is written out.
fn with_room(rt: &HostRuntime, out: &[u8], at: usize) -> usize
    requires { at ≤ length out.now }
    ensures { result ≤ length out.now }
{
    if out.len() - at < ROOM {
        flush(rt, out, at);
        return 0;
    }
    at
}

// Writes the records of the line in the splitter.
fn report(rt: &HostRuntime, s: Splitter, out: &mut [u8], at: usize) -> usize
    requires { (Sized s) × (at ≤ length out.old) }
    ensures { result ≤ length out.new }
{
    let bytes = &s.kept[..s.len];
    let start = with_room(rt, out, at);
    said(out, start, s.line, bytes)
}

// Writes the records of the lines that end in a chunk. Every cut is looked at once, and tells where the next one begins.
#[tactic(auto, using(crate::proofs::Advance::moves_on, crate::proofs::Advance::stays_sized))]
fn report_chunk(rt: &HostRuntime, before: Progress, chunk: &[u8], out: &mut [u8]) -> Progress
    requires { (Sized before.splitter) × (before.at ≤ length out.old) }
    ensures { (Sized result.splitter) × (result.at ≤ length out.new) }
{
    let mut splitter = before.splitter;
    let mut at = before.at;
    let mut from = 0;
    while from < chunk.len() {
        let cut = splitter.cut(chunk, from);
        splitter = cut.splitter;
        from = cut.next;
        if splitter.ended {
            at = report(rt, splitter, out, at);
        }
    }
    Progress { splitter, at }
}

// Writes the record of a last line without its newline, and writes out the rest.
fn finish(rt: &HostRuntime, last: Progress, out: &mut [u8])
    requires { (Sized last.splitter) × (last.at ≤ length out.old) }
{
    if last.splitter.ended {
        flush(rt, out, last.at);
        return;
    }
    let at = report(rt, last.splitter, out, last.at);
    flush(rt, out, at);
}

// Reads chunk after chunk. Nothing guarantees that the input ends, so the turns are counted.
#[tactic(auto, using(text_rules::proofs::Held::fresh_sized))]
fn report_all(rt: &HostRuntime, input: &mut [u8], out: &mut [u8]) {
    let mut progress = Progress {
        splitter: Splitter::started(),
        at: 0,
    };
    for _ in 0..u64::MAX {
        let n = read_some(rt, input);
        if n == 0 {
            break;
        }
        progress = report_chunk(rt, progress, &input[..n], out);
    }
    finish(rt, progress, out);
}

fn main(rt: HostRuntime) {
    let mut input = [0u8; BUFFER];
    let mut out = [0u8; BUFFER];
    report_all(&rt, &mut input, &mut out);
}
