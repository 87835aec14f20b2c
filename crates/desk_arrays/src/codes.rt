// The codes for a status and for what was asked, as the desk's arrays hold them: bytes, since a caller in C keeps the desk and lends these arrays.
ghost use Rattle.std.specs.Prelude.{◌≡◌};
ghost use Rattle.desk_arrays.specs.Codes.{ask_code, ask_of};

use terms::letters::Ask;

pub const FREE: u8 = 0;

pub const RUNNING: u8 = 1;

pub const WAITING: u8 = 2;

pub const SENT_BACK: u8 = 3;

// The code of what was asked. A `From` cannot stand here: neither `Ask` nor `u8` is of this crate.
pub fn ask_code(a: Ask) -> u8
    ensures { result ≡ ask_code a }
{
    match a {
        Ask::Read => 0,
        Ask::Write => 1,
        Ask::Increment => 2,
        Ask::Update => 3,
    }
}

// What was asked, from its code.
pub fn ask_of(code: u8) -> Ask
    ensures { result ≡ ask_of code }
{
    match code {
        0 => Ask::Read,
        1 => Ask::Write,
        3 => Ask::Update,
        _ => Ask::Increment,
    }
}
