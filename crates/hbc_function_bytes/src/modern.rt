// The rows of the modern layout, as those of the legacy one.
ghost use Rattle.std.specs.Prelude.{◌≡◌, ◌+◌, ◌/◌};
ghost use Rattle.hbc_function_record.specs.declared.Layout.TheVariants.{Modern12};
ghost use Rattle.hbc_function_bytes.specs.Bytes.{values_in, inline_number, pointer_to, right_row};
ghost use Rattle.hbc_function_bytes.specs.Private.{Holds};

use crate::OVERFLOW;
use hbc_function_record::bit_layout::{Field, MODERN};
use hbc_function_record::{
    ROW_FLAGS, ROW_FRAME_SIZE, ROW_ID, ROW_LAYOUT, ROW_LOOP_DEPTH, ROW_NAME, ROW_NEW_OBJECT,
    ROW_NON_PTR_REG, ROW_NUMBER_REG, ROW_OFFSET, ROW_PARAM_COUNT, ROW_PRIVATE_NAME, ROW_READ_CACHE,
    ROW_SIZE, ROW_WRITE_CACHE, WIDTH,
};

fn wrong(read: u32, write: u32, new: u32, private: u32, flags: u32) -> u64
    ensures { result ≡ read / 256 + write / 256 + new / 256 + private / 256 + flags / 256 }
{
    ((read / 256) as u64)
        + ((write / 256) as u64)
        + ((new / 256) as u64)
        + ((private / 256) as u64)
        + ((flags / 256) as u64)
}

pub(crate) fn is_right(row: [u32; WIDTH], id: u32) -> bool
    ensures { result ≡ right_row Modern12 id row }
{
    if row[ROW_LAYOUT] != 1 {
        return false;
    }
    if row[ROW_ID] != id {
        return false;
    }
    wrong(
        row[ROW_READ_CACHE],
        row[ROW_WRITE_CACHE],
        row[ROW_NEW_OBJECT],
        row[ROW_PRIVATE_NAME],
        row[ROW_FLAGS],
    ) == 0
}

// Each field, and the word of a row that it holds.
pub(crate) fn fields() -> [(Field, usize); 13]
    ensures { Holds Modern12 result }
{
    let list = MODERN;
    [
        (list.offset, ROW_OFFSET),
        (list.param_count, ROW_PARAM_COUNT),
        (list.loop_depth, ROW_LOOP_DEPTH),
        (list.size, ROW_SIZE),
        (list.name, ROW_NAME),
        (list.number_reg, ROW_NUMBER_REG),
        (list.non_ptr_reg, ROW_NON_PTR_REG),
        (list.frame_size, ROW_FRAME_SIZE),
        (list.read_cache, ROW_READ_CACHE),
        (list.write_cache, ROW_WRITE_CACHE),
        (list.new_object, ROW_NEW_OBJECT),
        (list.private_name, ROW_PRIVATE_NAME),
        (list.flags, ROW_FLAGS),
    ]
}

// Of the flags the overflow bit alone.
pub(crate) fn pointer(place: usize) -> [u32; WIDTH]
    ensures { inline_number Modern12 (values_in Modern12 result) ≡ inline_number Modern12 (pointer_to Modern12 place) }
{
    let mut row = [0u32; WIDTH];
    row[ROW_OFFSET] = (place % 0x100_0000) as u32;
    row[ROW_NAME] = (place / 0x100_0000 % 0x1_0000_0000) as u32;
    row[ROW_FLAGS] = OVERFLOW;
    row
}
