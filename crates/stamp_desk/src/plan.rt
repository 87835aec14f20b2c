// What a step is to do, decided over lent arrays before anything changes (02, No. 6; 01, Refusals by number).
ghost use Rattle.std.specs.Prelude.{◌≡◌, ◌||◌, ltb, Some};
ghost use Rattle.stamp_arrays.specs.Steps.{late_with, begin_move, found_at, close_move, retry_move, ask_move, move_for};

use desks::finding::{Opening, opening_for, place_of};
use stamp_arrays::moves::Move;
use stamp_arrays::state::ROWS;
use terms::letters::{Ask, Letter};
use terms::limits::{CELLS, PLACES};
use terms::refusals::Refusal;

// The desk's numbers as a plan reads them.
#[derive(Clone, Copy)]
pub struct Board<'a> {
    pub next: u64,
    pub number: &'a [u32; PLACES],
    pub reader: &'a [u32; ROWS],
    pub writer: &'a [u32; ROWS],
}

// Whether a job is too late to write: its number is smaller than one of the cell's two numbers.
fn late_to_write(reader: u32, writer: u32, job: u32) -> bool
    ensures { result ≡ (ltb job reader || ltb job writer) }
{
    job < reader || job < writer
}

// Whether a job's request is too late, by the cell's two numbers; equal numbers go. An increment is late exactly when a write is.
#[tactic(auto, unfolding(stamp_arrays::specs::Steps::late_with, stamp_rules::specs::Rules::late, stamp_rules::specs::Rules::late_to_read, stamp_rules::specs::Rules::late_to_write))]
fn is_late(reader: u32, writer: u32, job: u32, a: Ask) -> bool
    ensures { result ≡ late_with reader writer job a }
{
    match a {
        Ask::Read | Ask::Update => job < writer,
        Ask::Write | Ask::Increment => late_to_write(reader, writer, job),
    }
}

impl Board<'_> {
    // Begin: refusal 7, then 6, else the next number at the first free place.
    #[tactic(auto, unfolding(stamp_arrays::specs::Steps::opened, stamp_arrays::specs::Steps::begin_move))]
    fn begin(self) -> Result<Move, Refusal>
        ensures { result ≡ begin_move self.entry.next self.entry.number.now }
    {
        let Opening { place, number } = opening_for(self.next, self.number)?;
        Ok(Move::Begin(place, number))
    }

    // Where a job stands; `None` for 0 and for a number at no place.
    #[tactic(auto, unfolding(stamp_arrays::specs::Steps::found_at))]
    fn find(self, job: u32) -> Option<usize>
        ensures { result ≡ found_at self.entry.number.now job }
    {
        let p = place_of(self.number, job);
        if job == 0 || PLACES <= p {
            return None;
        }
        Some(p)
    }

    // Commit and give-up: refusal 3, else the job is closed.
    #[tactic(auto, unfolding(stamp_arrays::specs::Steps::close_move))]
    fn close(self, job: u32) -> Result<Move, Refusal>
        ensures { result ≡ close_move (found_at self.entry.number.now job) }
    {
        let p = self.find(job).ok_or(Refusal::NotOpen)?;
        Ok(Move::Close(p))
    }

    // Retry: refusal 3, else 19.
    #[tactic(auto, unfolding(stamp_arrays::specs::Steps::retry_move))]
    fn retry(self, job: u32) -> Result<Move, Refusal>
        ensures { result ≡ retry_move (found_at self.entry.number.now job) }
    {
        self.find(job).ok_or(Refusal::NotOpen)?;
        Err(Refusal::NoRetry)
    }

    // Read, write, increment and u: refusal 3, then 2; then the job is sent back if it is late, and else it acts.
    #[tactic(auto, unfolding(stamp_arrays::specs::Steps::ask_move, stamp_arrays::specs::Steps::act_move))]
    fn ask(self, job: u32, c: u32, a: Ask) -> Result<Move, Refusal>
        ensures { result ≡ ask_move self.entry.reader.now self.entry.writer.now (found_at self.entry.number.now job) job c a }
    {
        let p = self.find(job).ok_or(Refusal::NotOpen)?;
        if CELLS <= c {
            return Err(Refusal::CellAbove);
        }
        let i = c as usize;
        if is_late(self.reader[i], self.writer[i], job, a) {
            return Ok(Move::SendBack(p));
        }
        Ok(Move::Act(a))
    }
}

// The move of a request, by its letter.
#[tactic(auto, unfolding(stamp_arrays::specs::Steps::move_for))]
pub fn plan_for(desk: Board, letter: Letter, job: u32, c: u32) -> Result<Move, Refusal>
    ensures { result ≡ move_for desk.entry.next desk.entry.number.now desk.entry.reader.now desk.entry.writer.now job c (Some letter) }
{
    match letter {
        Letter::Back => Err(Refusal::UnknownKind),
        Letter::Begin => desk.begin(),
        Letter::Commit | Letter::GiveUp => desk.close(job),
        Letter::Retry => desk.retry(job),
        Letter::Asks(a) => desk.ask(job, c, a),
    }
}
