// The front of the desk programs: it passes standard input to the clerk chunk by chunk, and writes the records, or at the end the chains, to standard output (01, What is delivered; 02, Nos. 3 and 6).
#![tactic(auto)]

ghost use Rattle.std.specs.Prelude.{◌≡◌, ◌≤◌, ◌<◌, length, take, IfOk, IfErr};
ghost use Rattle.program_rules.specs.Work.{line_room, all_read};
ghost use Rattle.program_rules.specs.Closing.{program_room, close_of, end_of};
ghost use Rattle.desk_io.specs.declared.Halt.TheVariants.{NotRead, NotTaken};
ghost use Rattle.desk_io.specs.Serving.{started_front, program_by, Turned, HandsOn, Serves, Saw, Over, Halts, Rests, HandsOnLast};

use clerk::chains::close;
use clerk::work::{finish, work};
use program_rules::{Clerk, Method, View};
use terms::limits::REQUEST_LINES;
use text_rules::splitter::Splitter;

// As many bytes are read at once, and as many have room before they are written out.
const BUFFER: usize = 65_536;

// Which desk program it is: the method that answers, and the view that it writes.
#[derive(Clone, Copy)]
pub struct Program {
    pub method: Method,
    pub view: View,
}

// What a program keeps from one read to the next: the view that it writes, and the clerk, which keeps the method.
#[derive(Clone, Copy)]
struct Front {
    view: View,
    clerk: Clerk,
}

// The front after a call of the work, the place in the chunk, and the place in the buffer before which the records stand.
// The three stay together, since what is to be written out is stated of all three (`HandsOn`).
#[derive(Clone, Copy)]
struct Called {
    front: Front,
    next: usize,
    at: usize,
}

// Why no more is read: the input ended or could not be read, every line to be read has been read, or output was not taken.
#[derive(Clone, Copy)]
enum Halt {
    Ended,
    NotRead,
    AllRead,
    NotTaken,
}

// The front after all that was read, and why reading stopped: every stop has its front, so it is no Result.
#[derive(Clone, Copy)]
struct Halted {
    front: Front,
    why: Halt,
}

// What a program says, under its name, when it cannot read and when it cannot write.
#[derive(Clone, Copy)]
struct Complaints {
    unread: &'static str,
    untaken: &'static str,
}

// The front of a program that has read nothing.
fn started(program: Program) -> Front
    ensures { result ≡ started_front program.method program.view }
{
    Front {
        view: program.view,
        clerk: Clerk::started(program.method),
    }
}

// The program that a front belongs to.
fn program_of(front: Front) -> Program
    ensures { result ≡ program_by front.clerk.desks.method front.view }
{
    Program {
        method: front.clerk.desks.method,
        view: front.view,
    }
}

// Whether every line to be read has been read, so that no further byte has an answer.
#[tactic(auto, unfolding(program_rules::specs::Work::all_read))]
fn is_over(s: Splitter) -> bool
    ensures { result ≡ all_read s }
{
    if s.ended {
        REQUEST_LINES <= s.line
    } else {
        REQUEST_LINES < s.line
    }
}

// What a program says of a read or a write that failed.
fn said_by(program: Program) -> Complaints {
    match (program.view, program.method) {
        (View::Answers, Method::Locks) => Complaints {
            unread: "answers: cannot read",
            untaken: "answers: cannot write",
        },
        (View::Answers, Method::Stamps) => Complaints {
            unread: "stamp_answers: cannot read",
            untaken: "stamp_answers: cannot write",
        },
        (View::History, Method::Locks) => Complaints {
            unread: "history: cannot read",
            untaken: "history: cannot write",
        },
        (View::History, Method::Stamps) => Complaints {
            unread: "stamp_history: cannot read",
            untaken: "stamp_history: cannot write",
        },
        (View::Chains, _) => Complaints {
            unread: "chain: cannot read",
            untaken: "chain: cannot write",
        },
    }
}

// Reads some bytes of standard input, and tells how many; if it cannot be read, says so on standard error.
fn take_in(rt: &HostRuntime, program: Program, input: &mut [u8]) -> Result<usize, Halt>
    ensures within { IfOk result (λ n. n ≤ length input.new) }
    ensures why { IfErr result (λ h. h ≡ NotRead) }
{
    match streams::read(rt, input) {
        Ok(n) => Ok(n),
        Err(e) => {
            streams::fail(rt, said_by(program).unread, &e);
            Err(Halt::NotRead)
        }
    }
}

// Writes bytes to standard output; if they are not taken, says so on standard error.
fn put_out(rt: &HostRuntime, program: Program, bytes: &[u8]) -> Result<(), Halt>
    ensures { IfErr result (λ h. h ≡ NotTaken) }
{
    match streams::write_all(rt, bytes) {
        Ok(()) => Ok(()),
        Err(e) => {
            streams::fail(rt, said_by(program).untaken, &e);
            Err(Halt::NotTaken)
        }
    }
}

// One call of the work, from a place of a chunk: its records are left in the buffer, to be written out.
fn serve_some(front: Front, chunk: &[u8], from: usize, out: &mut [u8]) -> Called
    requires { (from < length chunk.now) × (line_room ≤ length out.old) }
    ensures { Turned front chunk.now from result out.new }
{
    let view = front.view;
    let worked = work(view, front.clerk, chunk, from, out, 0);
    Called {
        front: Front {
            view,
            clerk: worked.clerk,
        },
        next: worked.next,
        at: worked.at,
    }
}

// The part of the buffer to be written out after a call of the work: the records of the lines that end in what the call has seen.
#[tactic(auto, using(crate::proofs::Places::handed_on))]
fn to_write<'a>(called: Called, out: &'a [u8]) -> &'a [u8]
    requires { called.at ≤ length out.now }
    ensures bytes { result.now ≡ take called.at out.now }
    ensures records { HandsOn called out.now result.now }
{
    &out[..called.at]
}

// A chunk: the records of every line that ends in it are written out before the next read. If output is not taken, the work ends.
#[tactic(auto, using(crate::proofs::Places::front_none, crate::proofs::Places::seen_more, crate::proofs::Places::serves_all))]
fn serve_chunk(
    rt: &HostRuntime,
    front: &mut Front,
    chunk: &[u8],
    out: &mut [u8],
) -> Result<(), Halt>
    requires { line_room ≤ length out.old }
    ensures { Serves front.old chunk.now front.new result }
{
    let mut seen = 0;
    while seen < chunk.len() {
        let called = serve_some(*front, chunk, seen, out);
        *front = called.front;
        seen = called.next;
        put_out(rt, program_of(called.front), to_write(called, out))?;
    }
    Ok(())
}

// One read, and the chunk that it gives, or why no more is read.
#[tactic(auto, using(crate::proofs::Places::saw_none, crate::proofs::Places::saw_part))]
fn serve_read(
    rt: &HostRuntime,
    front: &mut Front,
    input: &mut [u8],
    out: &mut [u8],
) -> Result<(), Halt>
    requires { line_room ≤ length out.old }
    ensures saw { Saw front.old front.new }
    ensures over { IfErr result (λ h. Over h front.new.clerk.splitter) }
{
    let n = take_in(rt, program_of(*front), input)?;
    if n == 0 {
        return Err(Halt::Ended);
    }
    serve_chunk(rt, front, &input[..n], out)?;
    if is_over(front.clerk.splitter) {
        return Err(Halt::AllRead);
    }
    Ok(())
}

// Reads chunk after chunk. No contract says that input ends, so there are as many turns as no run uses up.
#[tactic(auto, using(crate::proofs::Places::saw_none, crate::proofs::Places::saw_since, crate::proofs::Places::saw_then))]
fn serve_all(rt: &HostRuntime, program: Program, input: &mut [u8], out: &mut [u8]) -> Halted
    requires { line_room ≤ length out.old }
    ensures { Halts program.method program.view result }
{
    let mut front = started(program);
    for _turn in 0..u64::MAX {
        if let Err(why) = serve_read(rt, &mut front, input, out) {
            return Halted { front, why };
        }
    }
    Halted {
        front,
        why: Halt::Ended,
    }
}

// The input has ended: the record of a last line that lacks its newline, and after it what the program writes last, from the buffer's first byte.
#[tactic(auto, using(crate::proofs::Rest::end_is))]
fn put_ended(front: Front, out: &mut [u8]) -> usize
    ensures { (result ≡ (end_of front.view front.clerk out.old 0).finished.at) × (out.new ≡ (end_of front.view front.clerk out.old 0).out) }
{
    let finished = finish(front.view, front.clerk, out, 0);
    close(front.view, front.clerk, out, finished.at).at
}

// Every line has been read: what the program writes last, from the buffer's first byte.
fn put_closed(front: Front, out: &mut [u8]) -> usize
    ensures { (result ≡ (close_of front.view front.clerk out.old 0).finished.at) × (out.new ≡ (close_of front.view front.clerk out.old 0).out) }
{
    close(front.view, front.clerk, out, 0).at
}

// A read failed: answers and history end as at the end of the input, and no chain is told for half a text.
#[tactic(auto, using(crate::proofs::Rest::rests_chains))]
fn put_unread(front: Front, out: &mut [u8]) -> usize
    requires { program_room front.view ≤ length out.old }
    ensures { Rests (record { front = front; why = NotRead }) result out.new }
{
    match front.view {
        View::Answers | View::History => put_ended(front, out),
        View::Chains => 0,
    }
}

// What is still to be written once no more is read, from the buffer's first byte.
#[tactic(auto, using(crate::proofs::Rest::rests_unread, crate::proofs::Rest::rests_untaken))]
fn put_rest(halted: Halted, out: &mut [u8]) -> usize
    requires { (program_room halted.front.view ≤ length out.old) × (Over halted.why halted.front.clerk.splitter) }
    ensures { Rests halted result out.new }
{
    let front = halted.front;
    match halted.why {
        Halt::Ended => put_ended(front, out),
        Halt::NotRead => put_unread(front, out),
        Halt::AllRead => put_closed(front, out),
        Halt::NotTaken => 0,
    }
}

// The part of the buffer to be written last.
fn to_write_last<'a>(halted: Halted, out: &'a mut [u8]) -> &'a [u8]
    requires { (program_room halted.front.view ≤ length out.old) × (Over halted.why halted.front.clerk.splitter) }
    ensures { HandsOnLast halted result.now }
{
    let at = put_rest(halted, out);
    &out[..at]
}

// Handles all of the input, and what is written and said at its end; returns which program was run.
#[tactic(auto, using(crate::proofs::OneProgram::room_kept, program_rules::proofs::Closings::line_room_lem))]
fn serve_input(rt: &HostRuntime, program: Program, input: &mut [u8], out: &mut [u8]) -> Program
    requires { program_room program.view ≤ length out.old }
    ensures { result ≡ program }
{
    let halted = serve_all(rt, program, input, out);
    let _ = put_out(rt, program, to_write_last(halted, out));
    program_of(halted.front)
}

// Serves standard input to its end, to the end of line 1,000,000, or to the first output that is not taken; says on standard error what cannot be read or written.
// Returns which program was run, so that no other method or view is passed on.
#[tactic(auto, using(crate::proofs::Rest::room_at_most))]
pub fn serve(rt: &HostRuntime, method: Method, view: View) -> Program
    ensures { result ≡ program_by method view }
{
    let mut input = [0u8; BUFFER];
    let mut out = [0u8; BUFFER];
    serve_input(rt, Program { method, view }, &mut input, &mut out)
}
