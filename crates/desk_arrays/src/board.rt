// The desk's arrays lent together, to be read: what a step looks at before it changes anything (01, The desk's rules).
use crate::state::SPOTS;
use terms::limits::PLACES;

// Which job each place has, and what it waits for: enough to tell a wake.
#[derive(Clone, Copy)]
pub struct Waits<'a> {
    pub number: &'a [u32; PLACES],
    pub cell: &'a [u8; PLACES],
    pub ask: &'a [u8; PLACES],
}

// The whole desk but for the next number.
#[derive(Clone, Copy)]
pub struct Board<'a> {
    pub number: &'a [u32; PLACES],
    pub status: &'a [u8; PLACES],
    pub cell: &'a [u8; PLACES],
    pub ask: &'a [u8; PLACES],
    pub held: &'a [u8; SPOTS],
}
