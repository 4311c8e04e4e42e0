// A header put into the bytes that are lent for it: each word by four stores that a compiler makes one of.
#![tactic(auto)]

ghost use Rattle.std.specs.Prelude.{◌≡◌, ◌++◌, ◌+◌, ◌*◌, ◌≤◌, length};
ghost use Rattle.hbc_bits.specs.Fields.{bytes_of};
ghost use Rattle.hbc_rows.specs.Rows.{put};
ghost use Rattle.hbc_function_put.specs.Put.{header_put, large_put};
ghost use Rattle.hbc_function_put.specs.Private.{each_in};

use hbc_function_record::{
    Layout, ROW_ENVIRONMENT_SIZE, ROW_FLAGS, ROW_FRAME_SIZE, ROW_INFO_OFFSET, ROW_LOOP_DEPTH,
    ROW_NAME, ROW_NEW_OBJECT, ROW_NON_PTR_REG, ROW_NUMBER_REG, ROW_OFFSET, ROW_PARAM_COUNT,
    ROW_PRIVATE_NAME, ROW_READ, ROW_READ_CACHE, ROW_SIZE, ROW_WRITE, ROW_WRITE_CACHE, WIDTH,
    header_size, large_size,
};

// The four bytes of a word.
fn put_word(buffer: &mut [u8], at: usize, word: u32)
    requires { at + 4 ≤ length buffer.old }
    ensures { buffer.new ≡ put at (bytes_of 4 word) buffer.old }
{
    let second = word / 256;
    let third = second / 256;
    let fourth = third / 256;
    buffer[at] = (word % 256) as u8;
    buffer[at + 1] = (second % 256) as u8;
    buffer[at + 2] = (third % 256) as u8;
    buffer[at + 3] = (fourth % 256) as u8;
}

// Words one after another, from the first byte on. How many there are the compiler knows, and no loop is left.
fn put_words<const N: usize>(buffer: &mut [u8], words: [u32; N])
    requires { 4 * length words ≤ length buffer.old }
    ensures { buffer.new ≡ put 0 (each_in 4 words.entry) buffer.old }
{
    for (k, word) in words.iter().enumerate() {
        put_word(buffer, 4 * k, *word);
    }
}

// The low bytes of values, from a place on, likewise.
fn put_bytes<const N: usize>(buffer: &mut [u8], at: usize, values: [u32; N])
    requires { at + length values ≤ length buffer.old }
    ensures { buffer.new ≡ put at (each_in 1 values.entry) buffer.old }
{
    for (k, value) in values.iter().enumerate() {
        buffer[at + k] = (*value % 256) as u8;
    }
}

// A large header: words, and then bytes.
fn store<const W: usize, const B: usize>(header: &mut [u8], words: [u32; W], bytes: [u32; B])
    requires { 4 * length words + length bytes ≤ length header.old }
    ensures { header.new ≡ put 0 (each_in 4 words.entry ++ each_in 1 bytes.entry) header.old }
{
    put_words(header, words);
    put_bytes(header, 4 * W, bytes);
}

// The words of an inline header, into bytes that are just as many as it has; else nothing is written. Of a part that is so long at its caller's the
// compiler leaves the test out.
pub fn put_header(header: &mut [u8], layout: Layout, words: [u32; 4])
    ensures { header.new ≡ header_put layout words header.old }
{
    if header.len() != header_size(layout) {
        return;
    }
    match layout {
        Layout::Legacy16 => put_words(header, words),
        Layout::Modern12 => put_words(header, [words[0], words[1], words[2]]),
    }
}

// A row's large header, in the same way.
pub fn put_large(header: &mut [u8], layout: Layout, row: [u32; WIDTH])
    ensures { header.new ≡ large_put layout row header.old }
{
    if header.len() != large_size(layout) {
        return;
    }
    match layout {
        Layout::Legacy16 => store(
            header,
            [
                row[ROW_OFFSET],
                row[ROW_PARAM_COUNT],
                row[ROW_SIZE],
                row[ROW_NAME],
                row[ROW_INFO_OFFSET],
                row[ROW_FRAME_SIZE],
                row[ROW_ENVIRONMENT_SIZE],
            ],
            [row[ROW_READ], row[ROW_WRITE], row[ROW_FLAGS]],
        ),
        Layout::Modern12 => store(
            header,
            [
                row[ROW_OFFSET],
                row[ROW_PARAM_COUNT],
                row[ROW_LOOP_DEPTH],
                row[ROW_SIZE],
                row[ROW_NAME],
                row[ROW_NUMBER_REG],
                row[ROW_NON_PTR_REG],
                row[ROW_FRAME_SIZE],
            ],
            [
                row[ROW_READ_CACHE],
                row[ROW_WRITE_CACHE],
                row[ROW_NEW_OBJECT],
                row[ROW_PRIVATE_NAME],
                row[ROW_FLAGS],
            ],
        ),
    }
}
