// The splitter: cuts chunks of input into lines of any length, in fixed memory (01, Lines).
ghost use Rattle.std.specs.Prelude.{◌≡◌, ◌==◌, ◌+◌, ◌-◌, ◌≤◌, ◌<◌, min, length, take, drop, position};
ghost use Rattle.std.proofs.lemmas.List.Edits.{sets};
ghost use Rattle.terms.specs.Words.{newline};
ghost use Rattle.text_rules.specs.Split.{kept, fresh, following, under_way, through, used, cut_of};

use terms::words::NEWLINE;

// How many bytes of a line are kept: as many as the longest good line has, its newline among them.
pub const KEPT: usize = 16;

// The line that is being put together: its first bytes, how many they are, whether its newline has come, and its number from 1.
// The bytes stand in an array with their number beside: memory is fixed, there is no heap.
#[derive(Clone, Copy)]
pub struct Splitter {
    pub kept: [u8; KEPT],
    pub len: usize,
    pub ended: bool,
    pub line: u64,
}

// The splitter after a part of a chunk, and the place in the chunk after that part.
#[derive(Clone, Copy)]
pub struct Cut {
    pub splitter: Splitter,
    pub next: usize,
}

// How many bytes of a text stand before its first newline, if it has one.
fn before_newline(text: &[u8]) -> Option<usize>
    ensures { result ≡ position (λ b. b == newline) text.now }
{
    text.iter().position(|byte| *byte == NEWLINE)
}

// How many bytes a text's first line has: those up to and including the first newline, or all if there is none.
fn line_length(text: &[u8]) -> usize
    ensures { result ≡ used text.now }
{
    match before_newline(text) {
        Some(before) => before + 1,
        None => text.len(),
    }
}

// The place after the line that starts at a place of a text: after its newline, or at the text's end if it has none. A place past the end stays.
#[tactic(auto, using(crate::proofs::Cutting::used_within, crate::proofs::Scan::end_past))]
pub fn line_end(text: &[u8], from: usize) -> usize
    ensures { result ≡ from + used (drop from text.now) }
{
    match text.get(from..) {
        Some(rest) => from + line_length(rest),
        None => from,
    }
}

// The number after a line's.
#[tactic(auto, unfolding(crate::specs::Split::following))]
fn next_line(line: u64) -> u64
    ensures { result ≡ following line }
{
    line.saturating_add(1)
}

// How many of n bytes there is room for when len are kept.
fn room(len: usize, n: usize) -> usize
    ensures { result ≡ min n (kept - len) }
{
    n.min(KEPT.saturating_sub(len))
}

// The kept bytes with the first n of a part put in from place len on. A copy of the part `all[len..len + n]` would want len within the places, also where n is 0: a splitter of any length is allowed.
#[tactic(auto, using(crate::proofs::Keeping::stored_more))]
fn filled(bytes: [u8; KEPT], len: usize, part: &[u8], n: usize) -> [u8; KEPT]
    requires { (n ≤ length part.now) × (n ≤ kept - len) }
    ensures { result ≡ sets bytes len (take n part.now) }
{
    let mut all = bytes;
    for i in 0..n {
        all[len + i] = part[i];
    }
    all
}

impl Splitter {
    // A splitter that has seen no byte.
    #[tactic(auto, unfolding(crate::specs::Split::fresh))]
    pub fn started() -> Self
        ensures { result ≡ fresh }
    {
        Self {
            kept: [0; KEPT],
            len: 0,
            ended: true,
            line: 0,
        }
    }

    // The line under way after a part of it, which may end the line. Its last byte is read by its place: over `part.last()` the proof of the result stayed open.
    fn grown(self, part: &[u8]) -> Self
        requires { (0 < length part.now) × (used part.now ≡ length part.now) }
        ensures { result ≡ through (under_way self.kept self.len self.line) part.now }
    {
        let n = room(self.len, part.len());
        Self {
            kept: filled(self.kept, self.len, part, n),
            len: self.len + n,
            ended: part[part.len() - 1] == NEWLINE,
            line: self.line,
        }
    }

    // The splitter after a chunk's bytes from a place up to and including the next newline, and the place after them.
    #[tactic(auto, using(crate::proofs::Cutting::cut_new, crate::proofs::Cutting::cut_none, crate::proofs::Cutting::cut_on, crate::proofs::Cutting::cut_part, crate::proofs::Cutting::cut_within))]
    pub fn cut(self, chunk: &[u8], from: usize) -> Cut
        ensures { result ≡ cut_of self chunk.now from }
    {
        let next = line_end(chunk, from);
        if next == from {
            return Cut {
                splitter: self,
                next,
            };
        }
        let line = if self.ended {
            Self {
                len: 0,
                line: next_line(self.line),
                ..self
            }
        } else {
            self
        };
        let splitter = line.grown(&chunk[from..next]);
        Cut { splitter, next }
    }
}
