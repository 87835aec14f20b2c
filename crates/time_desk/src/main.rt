// Twenty-four hands, each with a job, and a mix of steps drawn from a fixed sequence, run on a desk: measures what a step by numbers costs, with no text between.
// With nothing on standard input the desk is the lock desk. A first byte `t` selects the timestamp desk; `l` or `s` selects the lock desk or the timestamp desk kept in one place and lent whole to each step (02, No. 7).
// Each step takes three draws, whatever the desk has answered: the hand, the kind and the cell.
// Writes how many steps went, waited, went back and were refused, and how many jobs woke; on the timestamp desk nobody waits or wakes.
#![tactic(auto)]

use desk_arrays::state::Desk;
use desks::Answer;
use stamp_arrays::state::Stamps;
use terms::letters::{BEGIN, COMMIT, GIVE_UP, INCREMENT, READ, RETRY, WRITE};
use terms::limits::{CELLS, PLACES};

// How many steps are drawn, and by how many hands.
const STEPS: u32 = 1000000;

const HANDS: usize = 24;

// The first byte that selects the timestamp desk; a lock desk lent whole; and a timestamp desk lent whole.
const STAMPS: u8 = b't';

const LENT_LOCKS: u8 = b'l';

const LENT_STAMPS: u8 = b's';

// The fixed sequence of draws, by the number that it is at.
#[derive(Clone, Copy)]
struct Draws {
    at: u32,
}

impl Draws {
    // The next draw: the upper half of the number that the sequence is at.
    fn draw(&mut self) -> u32 {
        let drawn = self.at / 65536;
        self.at = self.at.wrapping_mul(1103515245).wrapping_add(12345);
        drawn
    }
}

// Of 32 steps, 15 read, 6 write, 4 increment, 5 commit, 1 gives up and 1 retries.
fn drawn_kind(n: u32) -> u8 {
    match n {
        0..=14 => READ,
        15..=20 => WRITE,
        21..=24 => INCREMENT,
        25..=29 => COMMIT,
        30 => GIVE_UP,
        _ => RETRY,
    }
}

// What becomes of a job that a desk sends back.
#[derive(Clone, Copy)]
enum SentBack {
    // it stays open, and is to retry
    Retries,
    // it is closed
    IsClosed,
}

// A hand.
#[derive(Clone, Copy)]
enum Hand {
    // without a job: it begins one
    Free,
    // with this job
    Has(u32),
    // with this job, which was sent back: it retries
    Back(u32),
}

impl Hand {
    // The number of its job, or 0.
    fn job(self) -> u32 {
        match self {
            Hand::Free => 0,
            Hand::Has(job) | Hand::Back(job) => job,
        }
    }

    // What it asks, by a draw.
    fn kind(self, drawn: u32) -> u8 {
        match self {
            Hand::Free => BEGIN,
            Hand::Has(_) => drawn_kind(drawn % 32),
            Hand::Back(_) => RETRY,
        }
    }

    // The hand after it has asked and was answered; a begin gives the new job.
    fn after(self, kind: u8, answer: Answer, sent_back: SentBack) -> Hand {
        match (answer, sent_back) {
            (Answer::Go(job), _) => match kind {
                COMMIT | GIVE_UP => Hand::Free,
                _ => Hand::Has(job),
            },
            (Answer::Back(job), SentBack::Retries) => Hand::Back(job),
            (Answer::Back(_), SentBack::IsClosed) => Hand::Free,
            (Answer::Wait(_), _) | (Answer::No(_), _) => self,
        }
    }
}

// How many steps got each answer, and how many jobs woke.
#[derive(Clone, Copy, Default)]
struct Tally {
    go: u64,
    wait: u64,
    back: u64,
    no: u64,
    wakes: u64,
}

impl Tally {
    // Counts one more answer, and its wakes.
    fn count(&mut self, answer: Answer, wakes: usize) {
        let counted = match answer {
            Answer::Go(_) => &mut self.go,
            Answer::Wait(_) => &mut self.wait,
            Answer::Back(_) => &mut self.back,
            Answer::No(_) => &mut self.no,
        };
        *counted = counted.wrapping_add(1);
        self.wakes = self.wakes.wrapping_add(wakes as u64);
    }
}

// All the steps, on a desk of any kind, which `step` holds: it makes one step there, and tells the answer and how many jobs woke.
fn draw_all<F: FnMut(u8, u32, u32) -> (Answer, usize)>(sent_back: SentBack, mut step: F) -> Tally
    requires { F.IsAlwaysCallable step }
{
    let mut draws = Draws { at: 1 };
    let mut hands = [Hand::Free; HANDS];
    let mut tally = Tally::default();
    for _ in 0..STEPS {
        let i = draws.draw() as usize % HANDS;
        let hand = hands[i];
        let kind = hand.kind(draws.draw());
        let cell = draws.draw() % CELLS;
        let (answer, wakes) = step(kind, hand.job(), cell);
        hands[i] = hand.after(kind, answer, sent_back);
        tally.count(answer, wakes);
    }
    tally
}

// On the lock desk, with its fields lent and changed in place.
fn on_locks() -> Tally {
    let mut d = Desk::first();
    let mut woken = [0; PLACES];
    draw_all(SentBack::Retries, |kind, job, cell| {
        let told = desk::step::step_on(
            &mut d.next,
            &mut d.number,
            &mut d.status,
            &mut d.cell,
            &mut d.ask,
            &mut d.held,
            &mut woken,
            kind,
            job,
            cell,
        );
        (told.answer, told.count)
    })
}

// On the timestamp desk, with its fields lent and changed in place.
fn on_stamps() -> Tally {
    let mut d = Stamps::first();
    draw_all(SentBack::IsClosed, |kind, job, cell| {
        let answer = stamp_desk::step::step_on(
            &mut d.next,
            &mut d.number,
            &mut d.reader,
            &mut d.writer,
            kind,
            job,
            cell,
        );
        (answer, 0)
    })
}

// On a lock desk that is lent whole to each step.
fn on_lent_locks() -> Tally {
    let mut d = Desk::first();
    draw_all(SentBack::Retries, |kind, job, cell| {
        let said = lent::locks::step_lent(&mut d, kind, job, cell);
        (said.answer, said.count)
    })
}

// On a timestamp desk that is lent whole to each step.
fn on_lent_stamps() -> Tally {
    let mut d = Stamps::first();
    draw_all(SentBack::IsClosed, |kind, job, cell| {
        (lent::stamps::step_lent(&mut d, kind, job, cell), 0)
    })
}

// The first byte of the input, if there is one; it selects a desk. Each program reads bytes by itself, since a public function for all could state nothing of what it returns.
fn first_byte(rt: &HostRuntime) -> Option<u8> {
    let mut one = [0u8; 1];
    match streams::read(rt, &mut one) {
        Ok(0) => None,
        Ok(_) => Some(one[0]),
        Err(e) => {
            streams::fail(rt, "time_desk: cannot read", &e);
            None
        }
    }
}

fn main(rt: HostRuntime) {
    let t = match first_byte(&rt) {
        Some(STAMPS) => on_stamps(),
        Some(LENT_LOCKS) => on_lent_locks(),
        Some(LENT_STAMPS) => on_lent_stamps(),
        _ => on_locks(),
    };
    if let Err(e) = println!(&rt; "{}\t{}\t{}\t{}\t{}", t.go, t.wait, t.back, t.no, t.wakes) {
        streams::fail(&rt, "time_desk: cannot write", &e);
    }
}
