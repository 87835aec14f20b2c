// Lock modes: what each request needs, what covers it, what is granted beside it (by the tables of `tables.rt`), and what a promotion asks for (01, The desk's rules; 02, No. 1 and No. 4).
ghost use Rattle.std.specs.Prelude.{◌≡◌};
ghost use Rattle.conflict.specs.Modes.{needed, recorded, covers, grants, asked, is_free, code_of, mode_of};

use crate::action::Kind;
use crate::tables::{COVERS, GRANTS, N, Row, Y, look};
use terms::letters::Ask;

// What a job holds on a cell.
#[derive(Clone, Copy)]
pub enum Mode {
    // nothing
    Free,
    // a shared lock, under which it may read
    S,
    // an exclusive lock, under which it may do anything
    X,
    // an increment lock, under which it may increment
    I,
    // an update lock: its job may read, and no other job gets a lock beside it
    U,
}

// The numbers that stand for the modes in the desk's table. They are numbers there, since the C interface lends the table's bytes.
pub const NOTHING: u8 = 0;

pub const SHARED: u8 = 1;

pub const EXCLUSIVE: u8 = 2;

pub const INCREMENTING: u8 = 3;

pub const UPDATING: u8 = 4;

// The mode that a request needs: a rule of the paper and no conversion, so it has its own name.
#[tactic(auto, unfolding(crate::specs::Modes::needed))]
pub fn needed_mode(a: Ask) -> Mode
    ensures { result ≡ needed a }
{
    match a {
        Ask::Read => Mode::S,
        Ask::Write => Mode::X,
        Ask::Increment => Mode::I,
        Ask::Update => Mode::U,
    }
}

// The kind of action that the history records for a request; this too is a rule and no conversion.
#[tactic(auto, unfolding(crate::specs::Modes::recorded))]
pub fn recorded_kind(a: Ask) -> Kind
    ensures { result ≡ recorded a }
{
    match a {
        Ask::Read => Kind::Read,
        Ask::Write => Kind::Write,
        Ask::Increment => Kind::Increment,
        Ask::Update => Kind::Read,
    }
}

// Whether a held mode covers a needed one, as the table `COVERS` says. Holding nothing covers no need.
pub fn mode_covers(held: Mode, need: Mode) -> bool
    ensures { result ≡ covers held need }
{
    look(COVERS, Row(N, N, N, N), held, need)
}

// Whether a mode that one job holds lets another job have the mode that it asks for, as the matrix `GRANTS` says. Beside a job that holds nothing, everything is granted.
pub fn mode_grants(held: Mode, asks: Mode) -> bool
    ensures { result ≡ grants held asks }
{
    look(GRANTS, Row(Y, Y, Y, Y), held, asks)
}

// The mode that a job asks for: of the mode it holds and the mode it needs, the one that covers the other, or X.
#[tactic(auto, unfolding(crate::specs::Modes::asked))]
pub fn asked_mode(held: Mode, need: Mode) -> Mode
    ensures { result ≡ asked held need }
{
    if mode_covers(held, need) {
        return held;
    }
    if mode_covers(need, held) {
        return need;
    }
    Mode::X
}

// Whether a mode is `Free`: the job holds nothing.
#[tactic(auto, unfolding(crate::specs::Modes::is_free))]
pub fn mode_is_free(m: Mode) -> bool
    ensures { result ≡ is_free m }
{
    matches!(m, Mode::Free)
}

// The number that stands for a mode in a table.
impl From<Mode> for u8 {
    ghost from_gives = { λ m code. code ≡ code_of m };

    #[tactic(auto, unfolding(crate::specs::Modes::code_of))]
    fn from(m: Mode) -> u8 {
        match m {
            Mode::Free => NOTHING,
            Mode::S => SHARED,
            Mode::X => EXCLUSIVE,
            Mode::I => INCREMENTING,
            Mode::U => UPDATING,
        }
    }
}

// The mode that a number stands for; nothing held, for a number of no mode.
impl From<u8> for Mode {
    ghost from_gives = { λ code m. m ≡ mode_of code };

    #[tactic(auto, unfolding(crate::specs::Modes::code_of, crate::specs::Modes::mode_of))]
    fn from(code: u8) -> Mode {
        match code {
            SHARED => Mode::S,
            EXCLUSIVE => Mode::X,
            INCREMENTING => Mode::I,
            UPDATING => Mode::U,
            _ => Mode::Free,
        }
    }
}
