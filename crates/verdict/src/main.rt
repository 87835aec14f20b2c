// The program `verdict`: the judge's verdict on the history on standard input, as one line (01, What is delivered).
#![tactic(auto)]

ghost use Rattle.std.specs.Prelude.{◌≡◌, ℕ, ◌+◌, ◌≤◌, length, IfOk};
ghost use Rattle.terms.specs.Limits.{judged_bytes};
ghost use Rattle.judge_rules.specs.VerdictLine.{verdict_of, line_limit};
ghost use Rattle.verdict.specs.Taking.{fitting, kept, Took, Judges};

use judge_line::verdict::verdict_line;
use std::io;
use terms::limits::JUDGED_BYTES;

// As many bytes as are read: one more than a text may have shows that it is too long.
const READ: usize = JUDGED_BYTES + 1;

// As many bytes are read at once.
const CHUNK: usize = 65_536;

// The line takes fewer bytes than this, whatever the text.
const ROOM: usize = 4_096;

// The line on a text, as the part of the buffer that holds it. There is room for the longest, so none is refused.
fn line_on<'a>(text: &[u8], out: &'a mut [u8]) -> &'a [u8]
    requires { line_limit ≤ length out.old }
    ensures { result.now ≡ verdict_of text.now }
{
    let next = verdict_line(text, out).unwrap_or(0);
    &out[..next]
}

// Keeps a chunk's bytes after those already kept, as far as there is room, and tells how many are kept then.
#[tactic(auto, unfolding(crate::specs::Taking::fitting, crate::specs::Taking::kept))]
fn keep(text: &mut [u8], before: usize, chunk: &[u8]) -> usize
    requires { before ≤ length text.old }
    ensures { (result ≡ before + fitting text.old before chunk.now) × (text.new ≡ kept text.old before chunk.now) }
{
    let n = chunk.len().min(text.len() - before);
    text[before..before + n].copy_from_slice(&chunk[..n]);
    before + n
}

// Reads until the input ends or the text's buffer is full; how many bytes are kept. Each read that goes on brings a byte, so the buffer's room bounds their number.
#[tactic(auto, using(crate::proofs::Keeping::took_none, crate::proofs::Keeping::took_within), unfolding(crate::specs::Taking::fitting))]
fn take_all(rt: &HostRuntime, input: &mut [u8], text: &mut [u8]) -> io::Result<usize>
    ensures taken { IfOk result (λ n. Took text.old text.new n) }
    ensures kept { (n : ℕ) × Took text.old text.new n }
{
    let mut len = 0;
    while len < text.len() {
        let n = streams::read(rt, input)?;
        if n == 0 {
            break;
        }
        len = keep(text, len, &input[..n]);
    }
    Ok(len)
}

// The part of the buffer to be written: the line on all that was read, of which this many bytes are kept.
fn to_write<'a>(len: usize, text: &[u8], out: &'a mut [u8]) -> &'a [u8]
    requires { (length text.now ≡ judged_bytes + 1) × (len ≤ length text.now) × (line_limit ≤ length out.old) }
    ensures { Judges text.now len result.now }
{
    line_on(&text[..len], out)
}

// Writes out the line on what was read, and says on standard error what failed. If a read fails there is no text to judge and no line: half a history gets no verdict.
fn report(rt: &HostRuntime, input: &mut [u8], text: &mut [u8], out: &mut [u8])
    requires { (length text.old ≡ judged_bytes + 1) × (line_limit ≤ length out.old) }
{
    match take_all(rt, input, text) {
        Ok(len) => {
            if let Err(e) = streams::write_all(rt, to_write(len, text, out)) {
                streams::fail(rt, "verdict: cannot write", &e);
            }
        }
        Err(e) => streams::fail(rt, "verdict: cannot read", &e),
    }
}

fn main(rt: HostRuntime) {
    let mut input = [0u8; CHUNK];
    let mut text = [0u8; READ];
    let mut out = [0u8; ROOM];
    report(&rt, &mut input, &mut text, &mut out);
}
