// Lines in and out, for C: each export calls the function of the same name in `tuyenlomac::lines`, and promises what it promises (02, No. 7).
ghost use Rattle.std.specs.Prelude.{◌≡◌, [], ◌∷◌};
ghost use Rattle.terms.specs.Letters.{letter_of, of_requests, of_histories};
ghost use Rattle.text_rules.specs.Lines.{read_line};
ghost use Rattle.tuyenlomac.specs.Numbers.{word_at};
ghost use Rattle.tuyenlomac.specs.Texts.{line_in, written_numbers, answer_bytes, line_bytes, told_of, left_of};

use tuyenlomac::lines::{Line, Placed};

// What a line of requests says; the line comes with its newline.
#[unsafe(no_mangle)]
pub extern "C" fn tuyenlomac_read_request(line: &[u8]) -> Line
    ensures { result ≡ line_in (read_line of_requests line.now) }
{
    tuyenlomac::lines::tuyenlomac_read_request(line)
}

// What a line of a history says; the line comes with its newline.
#[unsafe(no_mangle)]
pub extern "C" fn tuyenlomac_read_history(line: &[u8]) -> Line
    ensures { result ≡ line_in (read_line of_histories line.now) }
{
    tuyenlomac::lines::tuyenlomac_read_history(line)
}

// Writes an answer record from a place: 1 if no word has that number, then 15 if the record does not fit; after either every byte stays.
#[unsafe(no_mangle)]
pub extern "C" fn tuyenlomac_write_answer(
    buffer: &mut [u8],
    at: usize,
    line: u64,
    word: u32,
    number: u64,
    field: u64,
) -> Placed
    ensures said { (result.refusal ∷ result.next ∷ []) ≡ written_numbers (told_of buffer.old at (answer_bytes line (word_at word) number field)) }
    ensures buffer { buffer.new ≡ left_of buffer.old at (answer_bytes line (word_at word) number field) }
{
    tuyenlomac::lines::tuyenlomac_write_answer(buffer, at, line, word, number, field)
}

// Writes the line of a letter from a place, a history record or a request: 1 if no letter has that byte, then 15 if the line does not fit; after either every byte stays.
#[unsafe(no_mangle)]
pub extern "C" fn tuyenlomac_write_line(
    buffer: &mut [u8],
    at: usize,
    kind: u8,
    job: u64,
    cell: u64,
) -> Placed
    ensures said { (result.refusal ∷ result.next ∷ []) ≡ written_numbers (told_of buffer.old at (line_bytes (letter_of kind) job cell)) }
    ensures buffer { buffer.new ≡ left_of buffer.old at (line_bytes (letter_of kind) job cell) }
{
    tuyenlomac::lines::tuyenlomac_write_line(buffer, at, kind, job, cell)
}
