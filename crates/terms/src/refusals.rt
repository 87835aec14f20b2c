// The refusals and their numbers, and the field at fault of a bad line (01, Refusals by number; 02, No. 5).
ghost use Rattle.std.specs.Prelude.{◌≡◌};
ghost use Rattle.terms.specs.Refusals.{number_of, field_number, field_of};

// The field at fault of a bad line.
#[derive(Clone, Copy)]
pub enum Field {
    // 1: the letter
    First,
    // 2: the job
    Second,
    // 3: the cell
    Third,
    // 4: what stands after the last field that the letter has
    Fourth,
}

// Why a request, a line, a history or a buffer is refused, in the order of the paper's table.
#[derive(Clone, Copy)]
pub enum Refusal {
    // 1: request kind other than the eight
    UnknownKind,
    // 2: cell above 63
    CellAbove,
    // 3: job is not open (0 never is)
    NotOpen,
    // 4: job is waiting, request is not give-up
    Waiting,
    // 5: job was sent back, request is read, write, increment, u or commit
    SentBack,
    // 6: begin with 32 open jobs
    AllOpen,
    // 7: begin after 4,294,967,295 was given
    NoNumberLeft,
    // 8: retry of a running job
    Running,
    // 9: bad line, with the field at fault
    BadLine(Field),
    // 10: desk started at number 0
    StartedAtZero,
    // 11: history has a line 4,097
    TooManyLines,
    // 12: job outside 1 to 255
    JobOutside,
    // 13: line for a job that has committed or given up
    Ended,
    // 14: order buffer shorter than 255 places
    ShortOrder,
    // 15: record does not fit from the place given, or the place is past the end
    NoRoom,
    // 16: history text longer than 65,536 bytes
    TooLong,
    // 18: fewer than 32 places lent for a chain
    ShortList,
    // 19: retry of an open job on the timestamp desk
    NoRetry,
}

// The number of a refusal.
impl From<Refusal> for u8 {
    ghost from_gives = { λ why n. n ≡ number_of why };

    fn from(why: Refusal) -> u8 {
        match why {
            Refusal::UnknownKind => 1,
            Refusal::CellAbove => 2,
            Refusal::NotOpen => 3,
            Refusal::Waiting => 4,
            Refusal::SentBack => 5,
            Refusal::AllOpen => 6,
            Refusal::NoNumberLeft => 7,
            Refusal::Running => 8,
            Refusal::BadLine(_) => 9,
            Refusal::StartedAtZero => 10,
            Refusal::TooManyLines => 11,
            Refusal::JobOutside => 12,
            Refusal::Ended => 13,
            Refusal::ShortOrder => 14,
            Refusal::NoRoom => 15,
            Refusal::TooLong => 16,
            Refusal::ShortList => 18,
            Refusal::NoRetry => 19,
        }
    }
}

// The number of a field.
impl From<Field> for u8 {
    ghost from_gives = { λ f n. n ≡ field_number f };

    fn from(f: Field) -> u8 {
        match f {
            Field::First => 1,
            Field::Second => 2,
            Field::Third => 3,
            Field::Fourth => 4,
        }
    }
}

// The field at fault, for a bad line; 0 for any other refusal.
pub fn field_of(r: Refusal) -> u8
    ensures { result ≡ field_of r }
{
    match r {
        Refusal::BadLine(f) => u8::from(f),
        _ => 0,
    }
}
