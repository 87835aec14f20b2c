// The judge, for C: each export calls the function of the same name in `tuyenlomac::histories`, and promises what it promises (02, No. 7).
ghost use Rattle.std.specs.Prelude.{◌≡◌, length};
ghost use Rattle.judge_rules.specs.Judgement.{judgement_of, line_from, in_numbers};

use tuyenlomac::histories::Judgement;

// The verdict on a history text. Reader and writer, the order or the knot fill the first places of the order buffer, and the rest stay; after a refusal all stay.
#[unsafe(no_mangle)]
pub extern "C" fn tuyenlomac_judge(text: &[u8], order: &mut [u8]) -> Judgement
    ensures said { result.said ≡ in_numbers (judgement_of text.now order.old).said }
    ensures from { result.from ≡ line_from text.now (judgement_of text.now order.old).said }
    ensures length { result.length ≡ length (judgement_of text.now order.old).line }
    ensures order { order.new ≡ (judgement_of text.now order.old).order }
{
    tuyenlomac::histories::tuyenlomac_judge(text, order)
}
