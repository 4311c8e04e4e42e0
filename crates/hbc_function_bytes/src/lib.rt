// The bytes of a row: whether it is right, and the words of its inline header, or of the one that says where its large one is.
// A row is an array, so that every call is total; no field of a header crosses a word of 32 bits.
#![tactic(auto)]

ghost use Rattle.std.specs.Prelude.{◌≡◌, true, ◌+◌, ◌≤◌, length};
ghost use Rattle.hbc_bits.specs.Fields.{joined, words_of};
ghost use Rattle.hbc_function_bytes.specs.Bytes.{values_in, inline_number, pointer_to, right_row};
ghost use Rattle.hbc_function_record.specs.Private.{Within};
ghost use Rattle.hbc_function_bytes.specs.Private.{placed, packed, bits_of, held_by};

use hbc_function_record::bit_layout::{Field, OVERFLOW_BIT};
use hbc_function_record::{Layout, WIDTH};

// What the layouts differ in, and they have no line in common: each function is called in one `match` on the layout, as a trait's would be.
mod legacy;
mod modern;

// The flags of a header that says where a large one is.
const OVERFLOW: u32 = 1 << OVERFLOW_BIT;

// A value in its field of the word of 32 bits that holds the field.
fn put(value: u32, f: Field) -> u32
    requires { Within f.0 f.1 }
    ensures { result ≡ placed f.0 f.1 value }
{
    let one: u32 = 1;
    let kept = value % (one << f.1);
    kept << f.0 % 32
}

// The words of a header that holds a row's words, each in the field that is named with its place. How many there are the compiler knows, and no loop is left.
fn header<const N: usize>(fields: [(Field, usize); N], row: [u32; WIDTH]) -> [u32; 4]
    requires { packed 0 fields ≡ true }
    ensures { result ≡ words_of 4 (joined (bits_of fields.entry) (held_by fields.entry row)) }
{
    let mut words = [0u32; 4];
    for (f, place) in fields {
        words[(f.0 / 32) as usize] += put(row[place], f);
    }
    words
}

// Whether row `id` is right: its layout, its number, the values of one byte, the zeros.
pub fn row_is_right(row: [u32; WIDTH], layout: Layout, id: u32) -> bool
    ensures { result ≡ right_row layout id row }
{
    match layout {
        Layout::Legacy16 => legacy::is_right(row, id),
        Layout::Modern12 => modern::is_right(row, id),
    }
}

// The words of a row's inline header; of a modern one there are three, and the last is 0.
pub fn inline_words(row: [u32; WIDTH], layout: Layout) -> [u32; 4]
    ensures { result ≡ words_of 4 (inline_number layout (values_in layout row)) }
{
    match layout {
        Layout::Legacy16 => header(legacy::fields(), row),
        Layout::Modern12 => header(modern::fields(), row),
    }
}

// A row of nothing but what the inline header that says where a large one is holds.
fn pointer_row(place: usize, layout: Layout) -> [u32; WIDTH]
    ensures { inline_number layout (values_in layout result) ≡ inline_number layout (pointer_to layout place) }
{
    match layout {
        Layout::Legacy16 => legacy::pointer(place),
        Layout::Modern12 => modern::pointer(place),
    }
}

// The words of the inline header that says where a large one is.
pub fn pointer_words(place: usize, layout: Layout) -> [u32; 4]
    ensures { result ≡ words_of 4 (inline_number layout (pointer_to layout place)) }
{
    inline_words(pointer_row(place, layout), layout)
}
