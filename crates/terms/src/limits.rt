// The limits of the paper, as constants of the code; `all_limits` ties them to the definitions. Array lengths and loop bounds use these names, or names made of them.
ghost use Rattle.std.specs.Prelude.{◌≡◌};
ghost use Rattle.terms.specs.Limits.{limits_of};

// Cells are 0 to 63.
pub const CELLS: u32 = 64;
// At most this many jobs are open.
pub const PLACES: usize = 32;
// The largest job number.
pub const LAST_NUMBER: u32 = 4_294_967_295;
// The judge's jobs are 1 to 255, and its order has as many places.
pub const JUDGED_JOBS: usize = 255;
// The judge reads at most this many lines.
pub const JUDGED_LINES: usize = 4_096;
// The verdict program reads at most this many bytes.
pub const JUDGED_BYTES: usize = 65_536;
// The desk programs read at most this many lines.
pub const REQUEST_LINES: u64 = 1_000_000;

#[derive(Clone, Copy)]
pub struct Limits {
    pub cells: u32,
    pub places: usize,
    pub last: u32,
    pub jobs: usize,
    pub lines: usize,
    pub bytes: usize,
    pub requests: u64,
}

// Every constant above, so that a proof can show that each is the definitions' number.
pub fn all_limits() -> Limits
    ensures { result ≡ limits_of }
{
    Limits {
        cells: CELLS,
        places: PLACES,
        last: LAST_NUMBER,
        jobs: JUDGED_JOBS,
        lines: JUDGED_LINES,
        bytes: JUDGED_BYTES,
        requests: REQUEST_LINES,
    }
}
