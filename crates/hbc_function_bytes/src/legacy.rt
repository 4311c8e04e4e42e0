// The rows of the legacy layout. What is wrong is added up: one test, and no branch on the way.
ghost use Rattle.std.specs.Prelude.{◌≡◌, ◌+◌, ◌/◌};
ghost use Rattle.hbc_function_record.specs.declared.Layout.TheVariants.{Legacy16};
ghost use Rattle.hbc_function_bytes.specs.Bytes.{values_in, inline_number, pointer_to, right_row};
ghost use Rattle.hbc_function_bytes.specs.Private.{Holds};

use crate::OVERFLOW;
use hbc_function_record::bit_layout::{Field, LEGACY};
use hbc_function_record::{
    ROW_ENVIRONMENT_SIZE, ROW_FLAGS, ROW_FRAME_SIZE, ROW_ID, ROW_INFO_OFFSET, ROW_LAYOUT, ROW_NAME,
    ROW_OFFSET, ROW_PARAM_COUNT, ROW_READ, ROW_SIZE, ROW_WRITE, WIDTH,
};

// What the values of one byte have above it, and the words that should be 0.
fn wrong(read: u32, write: u32, flags: u32, a: u32, b: u32, c: u32, d: u32) -> u64
    ensures { result ≡ read / 256 + write / 256 + flags / 256 + a + b + c + d }
{
    ((read / 256) as u64)
        + ((write / 256) as u64)
        + ((flags / 256) as u64)
        + (a as u64)
        + (b as u64)
        + (c as u64)
        + (d as u64)
}

pub(crate) fn is_right(row: [u32; WIDTH], id: u32) -> bool
    ensures { result ≡ right_row Legacy16 id row }
{
    if row[ROW_LAYOUT] != 0 {
        return false;
    }
    if row[ROW_ID] != id {
        return false;
    }
    wrong(
        row[ROW_READ],
        row[ROW_WRITE],
        row[ROW_FLAGS],
        row[12],
        row[13],
        row[14],
        row[15],
    ) == 0
}

// Each field, and the word of a row that it holds.
pub(crate) fn fields() -> [(Field, usize); 10]
    ensures { Holds Legacy16 result }
{
    let list = LEGACY;
    [
        (list.offset, ROW_OFFSET),
        (list.param_count, ROW_PARAM_COUNT),
        (list.size, ROW_SIZE),
        (list.name, ROW_NAME),
        (list.info_offset, ROW_INFO_OFFSET),
        (list.frame_size, ROW_FRAME_SIZE),
        (list.environment_size, ROW_ENVIRONMENT_SIZE),
        (list.read, ROW_READ),
        (list.write, ROW_WRITE),
        (list.flags, ROW_FLAGS),
    ]
}

// Of the flags the overflow bit alone.
pub(crate) fn pointer(place: usize) -> [u32; WIDTH]
    ensures { inline_number Legacy16 (values_in Legacy16 result) ≡ inline_number Legacy16 (pointer_to Legacy16 place) }
{
    let mut row = [0u32; WIDTH];
    row[ROW_OFFSET] = (place % 0x1_0000) as u32;
    row[ROW_INFO_OFFSET] = (place / 0x1_0000 % 0x1_0000_0000) as u32;
    row[ROW_FLAGS] = OVERFLOW;
    row
}
