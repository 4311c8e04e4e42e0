// The calls of hbc_text and hbc_json for C and Rust, behind exports of hbc_c.
#![tactic(auto)]

ghost use Rattle.hbc_c_text.specs.Text.{ToldText, ToldStringsJson};

use hbc_c_code::code;

// Accepted, the answer is the text's length.
pub fn string_text(storage: &[u8], rows: &[u32], index: usize, out: &mut [u8]) -> u64
    ensures { ToldText storage.now rows.now index out.old result out.new }
{
    match hbc_text::string_text(storage, rows, index, out) {
        Ok(n) => n as u64,
        Err(r) => code(r),
    }
}

// Accepted, the answer is 0 and the array's length is in `length`.
pub fn strings_json(
    storage: &[u8],
    rows: &[u32],
    count: u32,
    out: &mut [u8],
    length: &mut usize,
) -> u64
    ensures { ToldStringsJson storage.now rows.now count out.old length.old
        result out.new length.new }
{
    match hbc_json::strings_json(storage, rows, count as usize, out) {
        Ok(n) => {
            *length = n;
            0
        }
        Err(r) => code(r),
    }
}
