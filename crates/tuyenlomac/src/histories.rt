// The judge for a caller that keeps the text of a history: the verdict in numbers, and where the faulty line stands (01, The judge's rules).
ghost use Rattle.std.specs.Prelude.{◌≡◌, length};
ghost use Rattle.judge_rules.specs.Judgement.{judgement_of, line_from, in_numbers};

use judge::entry::judge_at;

// The verdict in four numbers; and the place of the faulty line in the text with its length without the newline, or 0 and 0.
#[repr(C)]
#[derive(Clone, Copy)]
pub struct Judgement {
    pub said: [u32; 4],
    pub from: usize,
    pub length: usize,
}

// The verdict on a history text. Reader and writer, the order or the knot fill the first places of the order buffer, and the rest stay; after a refusal all stay.
pub fn tuyenlomac_judge(text: &[u8], order: &mut [u8]) -> Judgement
    ensures said { result.said ≡ in_numbers (judgement_of text.now order.old).said }
    ensures from { result.from ≡ line_from text.now (judgement_of text.now order.old).said }
    ensures length { result.length ≡ length (judgement_of text.now order.old).line }
    ensures order { order.new ≡ (judgement_of text.now order.old).order }
{
    let mut said = [0u32; 4];
    let line = judge_at(text, order, &mut said);
    Judgement {
        said,
        from: line.from,
        length: line.length,
    }
}
