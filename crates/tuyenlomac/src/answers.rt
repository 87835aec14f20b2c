// The answer to a request in numbers, for callers that have no enums: its word, the number beside it, and how many jobs it woke.
ghost use Rattle.std.specs.Prelude.{◌≡◌};
ghost use Rattle.tuyenlomac.specs.Numbers.{in_three};

use desks::Answer;

// An answer: the word's number; the job, or the refusal's number; and the number of wakes.
#[repr(C)]
#[derive(Clone, Copy)]
pub struct Answered {
    pub word: u32,
    pub number: u32,
    pub wakes: usize,
}

// An answer with this many wakes.
#[tactic(auto, unfolding(crate::specs::Numbers::in_three, desks::specs::AnswerWords::number_beside, desks::specs::AnswerWords::word_of))]
pub fn in_three(a: Answer, wakes: usize) -> Answered
    ensures { result ≡ in_three a wakes }
{
    let (word, number) = match a {
        Answer::Go(job) => (0, job),
        Answer::Wait(job) => (1, job),
        Answer::Back(job) => (2, job),
        Answer::No(why) => (3, u32::from(u8::from(why))),
    };
    Answered {
        word,
        number,
        wakes,
    }
}
