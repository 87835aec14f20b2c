// The request line that the splitter holds, whatever length the splitter reports: what the line says, or its field at fault if it lacks its newline (01, Lines).
ghost use Rattle.std.specs.Prelude.{◌≡◌};
ghost use Rattle.terms.specs.Letters.{of_requests};
ghost use Rattle.text_rules.specs.Fields.{lacking};
ghost use Rattle.text_rules.specs.Lines.{read_line};
ghost use Rattle.text_rules.specs.Split.{found_at};

use crate::reader::{lacking, read_request};
use terms::Field;
use text_rules::Reading;
use text_rules::splitter::Splitter;

// What the line in the splitter says. The attribute keeps it in the loop over the lines, although the end of the input calls it too: each line takes some ten ns less.
#[tactic(auto, using(std::proofs::lemmas::List::take_min), unfolding(text_rules::specs::Split::found_at))]
#[inline(always)]
pub fn read_held(s: Splitter) -> Reading
    ensures { result ≡ read_line of_requests (found_at s).bytes }
{
    let kept = &s.kept;
    read_request(&kept[..s.len.min(kept.len())])
}

// The field at fault of the line in the splitter, which has no newline.
pub fn torn_held(s: Splitter) -> Field
    ensures { result ≡ lacking (read_line of_requests (found_at s).bytes) }
{
    lacking(read_held(s))
}
