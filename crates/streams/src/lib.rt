// Standard input, output and error, as the programs use them: a read of some bytes, a write of all of them, and a line about what failed.
#![tactic(auto)]

ghost use Rattle.std.specs.Prelude.{◌≤◌, length, IfOk};

use std::io;
use std::io::{Read, Write};

// More bytes than a line about what failed has.
const LINE: usize = 512;

// What the library puts behind the system's reason, with the reason's number.
const NUMBER: &[u8] = b" (os error ";

// One read of standard input into a buffer: how many bytes came, none at the input's end.
pub fn read(rt: &HostRuntime, buffer: &mut [u8]) -> io::Result<usize>
    ensures { IfOk result (λ n. n ≤ length buffer.new) }
{
    rt.stdin().read(buffer)
}

// Writes all of the bytes to standard output.
pub fn write_all(rt: &HostRuntime, bytes: &[u8]) -> io::Result<()> {
    rt.stdout().write_all(bytes)
}

// Puts what failed and the system's reason into the first places of a buffer; returns how many places are left behind them.
fn put_reason(buffer: &mut [u8], what: &str, error: &io::Error) -> usize {
    let mut rest = buffer;
    let _ = write!(rest, "{what}: {error}");
    rest.len()
}

// The bytes before the reason's number.
fn bare(line: &[u8]) -> &[u8] {
    match line.windows(NUMBER.len()).position(|w| w == NUMBER) {
        Some(at) => &line[..at],
        None => line,
    }
}

// Says on standard error, in one line, what failed and the system's reason. If that cannot be said either, nothing more can be done.
pub fn fail(rt: &HostRuntime, what: &str, error: &io::Error) {
    let mut line = [0u8; LINE];
    let left = put_reason(&mut line, what, error);
    let len = LINE.saturating_sub(left);
    let mut out = rt.stderr();
    let _ = out.write_all(bare(&line[..len]));
    let _ = out.write_all(b"\n");
}
