// The letters of request and history lines (01, Lines).
ghost use Rattle.std.specs.Prelude.{◌≡◌};
ghost use Rattle.terms.specs.Letters.{byte_of, letter_of, of_requests, of_histories, has_job, has_cell};

// What a job may ask of a cell.
#[derive(Clone, Copy)]
pub enum Ask {
    // r
    Read,
    // w
    Write,
    // i
    Increment,
    // u: read with intent to write
    Update,
}

// Every letter of the paper.
#[derive(Clone, Copy)]
pub enum Letter {
    // b: open a new job
    Begin,
    // c: commit
    Commit,
    // a: give up
    GiveUp,
    // t: retry (requests only)
    Retry,
    // k: sent back, aborted (histories only)
    Back,
    // r, w, i and u: read, write or increment a cell, or read it with intent to write
    Asks(Ask),
}

pub const BEGIN: u8 = b'b';

pub const COMMIT: u8 = b'c';

pub const GIVE_UP: u8 = b'a';

pub const RETRY: u8 = b't';

pub const BACK: u8 = b'k';

pub const READ: u8 = b'r';

pub const WRITE: u8 = b'w';

pub const INCREMENT: u8 = b'i';

pub const UPDATE: u8 = b'u';

// The byte of a letter.
impl From<Letter> for u8 {
    ghost from_gives = { λ l byte. byte ≡ byte_of l };

    fn from(l: Letter) -> u8 {
        match l {
            Letter::Begin => BEGIN,
            Letter::Commit => COMMIT,
            Letter::GiveUp => GIVE_UP,
            Letter::Retry => RETRY,
            Letter::Back => BACK,
            Letter::Asks(Ask::Read) => READ,
            Letter::Asks(Ask::Write) => WRITE,
            Letter::Asks(Ask::Increment) => INCREMENT,
            Letter::Asks(Ask::Update) => UPDATE,
        }
    }
}

// The letter of a byte, or none. It is no `TryFrom`: that wants an error, and each caller has its own, a refusal or a field at fault.
pub fn letter_of(byte: u8) -> Option<Letter>
    ensures { result ≡ letter_of byte }
{
    match byte {
        BEGIN => Some(Letter::Begin),
        COMMIT => Some(Letter::Commit),
        GIVE_UP => Some(Letter::GiveUp),
        RETRY => Some(Letter::Retry),
        BACK => Some(Letter::Back),
        READ => Some(Letter::Asks(Ask::Read)),
        WRITE => Some(Letter::Asks(Ask::Write)),
        INCREMENT => Some(Letter::Asks(Ask::Increment)),
        UPDATE => Some(Letter::Asks(Ask::Update)),
        _ => None,
    }
}

// Whether a request line may begin with the letter.
pub fn of_requests(l: Letter) -> bool
    ensures { result ≡ of_requests l }
{
    !matches!(l, Letter::Back)
}

// Whether a history line may begin with the letter.
pub fn of_histories(l: Letter) -> bool
    ensures { result ≡ of_histories l }
{
    match l {
        Letter::Begin => false,
        Letter::Commit => true,
        Letter::GiveUp => true,
        Letter::Retry => false,
        Letter::Back => true,
        Letter::Asks(a) => match a {
            Ask::Read => true,
            Ask::Write => true,
            Ask::Increment => true,
            Ask::Update => false,
        },
    }
}

// Whether a job follows the letter.
pub fn has_job(l: Letter) -> bool
    ensures { result ≡ has_job l }
{
    !matches!(l, Letter::Begin)
}

// Whether a cell follows the job.
pub fn has_cell(l: Letter) -> bool
    ensures { result ≡ has_cell l }
{
    matches!(l, Letter::Asks(_))
}
