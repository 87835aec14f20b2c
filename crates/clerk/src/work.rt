// Line after line of a chunk: cut it, read it, step the desk that the method names, write the records (01, Lines; 02, No. 6).
ghost use Rattle.std.specs.Prelude.{◌≡◌, true, ◌+◌, ◌≤◌, length};
ghost use Rattle.terms.specs.Limits.{request_lines};
ghost use Rattle.text_rules.specs.Wrote.{Wrote};
ghost use Rattle.desk_arrays.specs.Seen.{on_arrays};
ghost use Rattle.stamp_arrays.specs.Seen.{on_stamps};
ghost use Rattle.program_rules.specs.OverLines.{asked};
ghost use Rattle.clerk.specs.Parts.{Answered};
ghost use Rattle.program_rules.specs.Work.{viewed, unended, line_room, due, turning, owing, work_of, finish_of};

use crate::heading::{Heading, Reply};
use crate::records::{put_bad, put_first, put_records};
use desk::step as locks;
use desk_arrays::board::Waits;
use desk_arrays::state::Desk;
use program_rules::{Clerk, Desks, Finished, Method, View, Worked};
use stamp_arrays::state::Stamps;
use stamp_desk::step as stamps;
use terms::limits::{PLACES, REQUEST_LINES};
use text::held::{read_held, torn_held};
use text::writer::has_room;
use text_rules::Line;
use text_rules::splitter::Splitter;

// The bytes of the longest record.
const LONGEST_RECORD: usize = 24;
// The most bytes of a line's records: its own record, and one for each wake.
pub const LINE_ROOM: usize = LONGEST_RECORD + LONGEST_RECORD * PLACES;

// Whether the line in the splitter is to be answered.
#[tactic(auto, unfolding(program_rules::specs::Work::due))]
fn is_due(s: Splitter) -> bool
    ensures { result ≡ due s }
{
    s.ended && s.line <= REQUEST_LINES
}

// Whether a line is under way that must be answered although it lacks its newline.
#[tactic(auto, unfolding(program_rules::specs::Work::owing))]
fn is_owing(s: Splitter) -> bool
    ensures { result ≡ owing s }
{
    s.line <= REQUEST_LINES && !s.ended
}

// Answers a good line on the lock desk, in place, and puts its records into the buffer.
fn answer_by_locks(
    d: &mut Desk,
    woken: &mut [u8; PLACES],
    h: Heading,
    l: Line,
    out: &mut [u8],
    at: usize,
) -> usize
    requires { at + line_room ≤ length out.old }
    ensures { Answered on_arrays h.view h.line (asked l.letter l.job l.cell) d.old d.new at result out.old out.new }
{
    let t = locks::step_in(d, woken, l.letter, l.job, l.cell);
    let r = Reply {
        letter: l.letter,
        cell: l.cell,
        answer: t.answer,
    };
    let w = Waits {
        number: &d.number,
        cell: &d.cell,
        ask: &d.ask,
    };
    put_records(out, at, h, r, w, &woken[..t.count])
}

// Answers a good line on the timestamp desk, in place, and puts its one record into the buffer: nobody waits there.
fn answer_by_stamps(d: &mut Stamps, h: Heading, l: Line, out: &mut [u8], at: usize) -> usize
    requires { at + line_room ≤ length out.old }
    ensures { Answered on_stamps h.view h.line (asked l.letter l.job l.cell) d.old d.new at result out.old out.new }
{
    let r = Reply {
        letter: l.letter,
        cell: l.cell,
        answer: stamps::step_in(d, l.letter, l.job, l.cell),
    };
    put_first(out, at, h, r)
}

// Answers the line in the splitter on the desk that the method names, in place, and puts its records into the buffer.
#[tactic(auto, using(program_rules::proofs::Turns::due_line))]
fn answer_line(
    view: View,
    desks: &mut Desks,
    woken: &mut [u8; PLACES],
    s: Splitter,
    out: &mut [u8],
    at: usize,
) -> usize
    requires { (due s ≡ true) × (at + line_room ≤ length out.old) }
    ensures { (turning view (record { desks = desks.old; splitter = s }) out.old at ≡ record { clerk = record { desks = desks.new; splitter = s }; at = result; out = out.new }) × (length out.new ≡ length out.old) }
{
    let h = Heading { view, line: s.line };
    match read_held(s) {
        Ok(l) => match desks.method {
            Method::Locks => answer_by_locks(&mut desks.locks, woken, h, l, out, at),
            Method::Stamps => answer_by_stamps(&mut desks.stamps, h, l, out, at),
        },
        Err(field) => put_bad(out, at, h, field),
    }
}

// Answers every line that ends in the chunk, from a place on, and puts its records into the buffer from a place on, while bytes are left and any line's records would fit.
// The loop counts no index: each cut tells where the next one begins. If they might not fit, the work is full: it stops before the next cut, and goes on from there once the buffer is written out.
#[tactic(auto, unfolding(program_rules::specs::Work::roomy), using(crate::proofs::Going::left_all, crate::proofs::Going::left_passes))]
pub fn work(view: View, c: Clerk, chunk: &[u8], from: usize, out: &mut [u8], at: usize) -> Worked
    ensures { (result ≡ (work_of view c chunk.now from out.old at).worked) × (out.new ≡ (work_of view c chunk.now from out.old at).out) }
{
    // Desks and splitter change apart: with the clerk changed as a whole, a line took up to 5% longer.
    let mut desks = c.desks;
    let mut woken = [0; PLACES];
    let mut splitter = c.splitter;
    let mut next = from;
    let mut place = at;
    let mut full = false;
    while next < chunk.len() {
        if !has_room(out.len(), place, LINE_ROOM) {
            full = true;
            break;
        }
        let cut = splitter.cut(chunk, next);
        splitter = cut.splitter;
        next = cut.next;
        if is_due(splitter) {
            place = answer_line(view, &mut desks, &mut woken, splitter, out, place);
        }
    }
    Worked {
        clerk: Clerk { desks, splitter },
        next,
        at: place,
        full,
    }
}

// Writes the record of the line in the splitter, if the input ended before its newline.
#[tactic(auto, using(crate::proofs::Cases::unended_told, text_rules::proofs::WroteLaws::wrote_as))]
fn put_unended(view: View, out: &mut [u8], at: usize, s: Splitter) -> usize
    requires { (s.line ≤ request_lines) × (at + line_room ≤ length out.old) }
    ensures { Wrote at result (viewed view (unended s)) out.old out.new }
{
    let h = Heading { view, line: s.line };
    put_bad(out, at, h, torn_held(s))
}

// The end of the input: a line without its newline gets refusal 9, with the field at fault. If that does not fit, the buffer must be written out first.
#[tactic(auto, unfolding(program_rules::specs::Work::roomy), using(program_rules::proofs::Ends::ends_full, program_rules::proofs::Ends::ends_none, program_rules::proofs::Ends::owing_line))]
pub fn finish(view: View, c: Clerk, out: &mut [u8], at: usize) -> Finished
    ensures { (result ≡ (finish_of view c out.old at).finished) × (out.new ≡ (finish_of view c out.old at).out) }
{
    let s = c.splitter;
    if !is_owing(s) {
        return Finished { at, full: false };
    }
    if !has_room(out.len(), at, LINE_ROOM) {
        return Finished { at, full: true };
    }
    Finished {
        at: put_unended(view, out, at, s),
        full: false,
    }
}
