// One step of the timestamp desk: carries out the plan on the desk, in place (02, No. 6).
ghost use Rattle.std.specs.Prelude.{◌<◌, ◌≡◌, get_or, set};
ghost use Rattle.laws.specs.Larger.{larger};
ghost use Rattle.terms.specs.Letters.{byte_of};
ghost use Rattle.terms.specs.Limits.{cells};
ghost use Rattle.stamp_arrays.specs.Steps.{stamps_of, readers_after, writers_after, carried, answer_to, step_of};
ghost use Rattle.stamp_desk.specs.InPlace.{Fits, StepsTo};

use crate::plan::{Board, plan_for};
use desks::Answer;
use stamp_arrays::moves::Move;
use stamp_arrays::state::{ROWS, Stamped, Stamps};
use terms::letters::{Ask, Letter, letter_of};
use terms::limits::PLACES;
use terms::refusals::Refusal;

// Records that a job has read the cell.
#[tactic(auto, unfolding(laws::specs::Larger::larger))]
fn mark_read(reader: &mut [u32; ROWS], c: usize, job: u32)
    requires { c < cells }
    ensures { reader.new ≡ set reader.old c (larger (get_or reader.old c 0) job) }
{
    reader[c] = reader[c].max(job);
}

// Updates the reader numbers after a job has acted on the cell.
#[tactic(auto, unfolding(stamp_arrays::specs::Steps::readers_after))]
fn mark_reader(reader: &mut [u32; ROWS], c: usize, job: u32, a: Ask)
    requires { c < cells }
    ensures { reader.new ≡ readers_after reader.old c job a }
{
    match a {
        Ask::Read | Ask::Increment | Ask::Update => mark_read(reader, c, job),
        Ask::Write => {}
    }
}

// Updates the writer numbers after a job has acted on the cell.
#[tactic(auto, unfolding(stamp_arrays::specs::Steps::writers_after))]
fn mark_writer(writer: &mut [u32; ROWS], c: usize, job: u32, a: Ask)
    requires { c < cells }
    ensures { writer.new ≡ writers_after writer.old c job a }
{
    match a {
        Ask::Write | Ask::Increment => writer[c] = job,
        Ask::Read | Ask::Update => {}
    }
}

// Carries out a move on the desk's fields, as `step_for` has them, and gives the answer that goes with it; a refusal changes nothing.
#[tactic(auto, unfolding(stamp_arrays::specs::Steps::carried, stamp_arrays::specs::Steps::answer_to))]
fn carry_out(
    next: &mut u64,
    number: &mut [u32; PLACES],
    reader: &mut [u32; ROWS],
    writer: &mut [u32; ROWS],
    m: Result<Move, Refusal>,
    job: u32,
    cell: u32,
) -> Answer
    requires { Fits cell m }
    ensures desk { stamps_of next.new number.new reader.new writer.new ≡ carried (stamps_of next.old number.old reader.old writer.old) job cell m }
    ensures said { result ≡ answer_to m job }
{
    match m {
        Err(why) => Answer::No(why),
        Ok(Move::Begin(p, new)) => {
            *next = new as u64 + 1;
            number[p] = new;
            Answer::Go(new)
        }
        Ok(Move::Close(p)) => {
            number[p] = 0;
            Answer::Go(job)
        }
        Ok(Move::SendBack(p)) => {
            number[p] = 0;
            Answer::Back(job)
        }
        Ok(Move::Act(a)) => {
            let c = cell as usize;
            mark_reader(reader, c, job, a);
            mark_writer(writer, c, job, a);
            Answer::Go(job)
        }
    }
}

// One step by letter, job and cell, on the desk's fields. They are lent one by one, since the C exports of `tuyenlomac` lend them so.
#[tactic(auto, using(crate::proofs::Performed::plan_fits, crate::proofs::Performed::steps))]
pub fn step_for(
    next: &mut u64,
    number: &mut [u32; PLACES],
    reader: &mut [u32; ROWS],
    writer: &mut [u32; ROWS],
    letter: Letter,
    job: u32,
    cell: u32,
) -> Answer
    ensures { StepsTo (stamps_of next.old number.old reader.old writer.old) (byte_of letter) job cell (stamps_of next.new number.new reader.new writer.new) result }
{
    let board = Board {
        next: *next,
        number,
        reader,
        writer,
    };
    let m = plan_for(board, letter, job, cell);
    carry_out(next, number, reader, writer, m, job, cell)
}

// The same by a byte; a byte of no letter is refused. The fields are lent one by one for the same reason.
#[tactic(auto, using(crate::proofs::Performed::by_letter, crate::proofs::Performed::refused_byte))]
pub fn step_on(
    next: &mut u64,
    number: &mut [u32; PLACES],
    reader: &mut [u32; ROWS],
    writer: &mut [u32; ROWS],
    kind: u8,
    job: u32,
    cell: u32,
) -> Answer
    ensures { StepsTo (stamps_of next.old number.old reader.old writer.old) kind job cell (stamps_of next.new number.new reader.new writer.new) result }
{
    match letter_of(kind) {
        None => Answer::No(Refusal::UnknownKind),
        Some(l) => step_for(next, number, reader, writer, l, job, cell),
    }
}

// One step by letter, job and cell, on a whole desk that is lent and changed in place.
pub fn step_in(d: &mut Stamps, letter: Letter, job: u32, cell: u32) -> Answer
    ensures { StepsTo d.old (byte_of letter) job cell d.new result }
{
    step_for(
        &mut d.next,
        &mut d.number,
        &mut d.reader,
        &mut d.writer,
        letter,
        job,
        cell,
    )
}

// One step by value, by a byte: takes the desk, and returns the new desk and the answer.
#[tactic(auto, using(crate::proofs::Performed::by_letter, crate::proofs::Performed::refused_byte))]
pub fn step(mut d: Stamps, kind: u8, job: u32, cell: u32) -> Stamped
    ensures { result ≡ step_of d kind job cell }
{
    let answer = match letter_of(kind) {
        None => Answer::No(Refusal::UnknownKind),
        Some(l) => step_in(&mut d, l, job, cell),
    };
    Stamped { stamps: d, answer }
}
