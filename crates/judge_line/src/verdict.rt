// The verdict as a line: orderly or knot with the jobs; dirty with reader and writer; or no with line number and refusal, and for refusal 9 the field at fault (01, The judge's rules; 02, No. 2 and No. 5).
ghost use Rattle.std.specs.Prelude.{◌≡◌, take};
ghost use Rattle.text_rules.specs.Records.{told, left};
ghost use Rattle.judge_rules.specs.VerdictLine.{say_line, verdict_of};

use crate::lines::{write_jobs, write_no};
use judge::entry::judge_text;
use judge_rules::verdict::Verdict;
use terms::limits::{JUDGED_BYTES, JUDGED_JOBS};
use terms::{Refusal, Word, field_of};

// The first n places of the order, or all if there are fewer.
fn first_places(order: &[u8], n: usize) -> &[u8]
    ensures { result.now ≡ take n order.now }
{
    &order[..n.min(order.len())]
}

// Writes the judge's verdict, with the jobs that it put into the order.
pub fn write_verdict(said: Verdict, order: &[u8], out: &mut [u8]) -> Result<usize, Refusal>
    ensures { (result ≡ told out.old 0 (say_line said order.now)) × (out.new ≡ left out.old 0 (say_line said order.now)) }
{
    match said {
        Verdict::Orderly(n) => write_jobs(out, Word::Orderly, first_places(order, n)),
        Verdict::Knot(n) => write_jobs(out, Word::Knot, first_places(order, n)),
        Verdict::Dirty { reader, writer } => write_jobs(out, Word::Dirty, &[reader, writer]),
        Verdict::No { line, why } => {
            let number = u64::from(u8::from(why));
            write_no(out, line as u64, number, u64::from(field_of(why)))
        }
    }
}

// Writes the verdict on a history text as a line; a text that is too long is refused before anything else.
pub fn verdict_line(text: &[u8], out: &mut [u8]) -> Result<usize, Refusal>
    ensures { (result ≡ told out.old 0 (verdict_of text.now)) × (out.new ≡ left out.old 0 (verdict_of text.now)) }
{
    if text.len() > JUDGED_BYTES {
        return write_no(out, 0, u64::from(u8::from(Refusal::TooLong)), 0);
    }
    let mut order = [0u8; JUDGED_JOBS];
    let said = judge_text(text, &mut order);
    write_verdict(said, &order, out)
}
