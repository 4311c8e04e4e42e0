// What the two layouts differ in where a table is written: the bits that are clear in a row that goes inline, and the sizes of headers.
ghost use Rattle.std.specs.Prelude.{ℕ, ◌≡◌, refl, true};
ghost use Rattle.hbc_function_record.specs.Record.{size_of, large_of};
ghost use Rattle.hbc_function_record.specs.declared.Layout.{Layout};
ghost use Rattle.hbc_function_record.specs.declared.Layout.TheVariants.{Legacy16, Modern12};
ghost use Rattle.hbc_function_bytes.specs.Bytes.{goes_inline};
ghost use Rattle.hbc_function_write.specs.Private.{Plain, Ended};

use crate::rows::{PAIRS, Row, WORD};
use hbc_function_record::bit_layout::{LEGACY, MODERN, OVERFLOW_BIT};
use hbc_function_record::{Layout, ROW_INFO_OFFSET};

// All bits of a pair, and the overflow bit.
const ALL: u64 = 0xFFFF_FFFF_FFFF_FFFF;

const OVERFLOW: u64 = 1 << OVERFLOW_BIT;

// The bits that are clear in a row that goes inline, pair by pair: those above a field's width, the overflow bit, and in modern all of info_offset.
const LEGACY_MASKS: [u64; PAIRS] = [
    0,
    ALL - ((1 << LEGACY.offset.1) - 1) - ((1 << LEGACY.param_count.1) - 1) * WORD,
    ALL - ((1 << LEGACY.size.1) - 1) - ((1 << LEGACY.name.1) - 1) * WORD,
    ALL - ((1 << LEGACY.info_offset.1) - 1) - ((1 << LEGACY.frame_size.1) - 1) * WORD,
    ALL - ((1 << LEGACY.flags.1) - 1) + OVERFLOW - ((1 << LEGACY.environment_size.1) - 1) * WORD,
    ALL - ((1 << LEGACY.read.1) - 1) - ((1 << LEGACY.write.1) - 1) * WORD,
    0,
    0,
];

// And where the four zeros are besides: one test of a row that is right and goes inline.
const LEGACY_PLAIN: [u64; PAIRS] = [
    LEGACY_MASKS[0],
    LEGACY_MASKS[1],
    LEGACY_MASKS[2],
    LEGACY_MASKS[3],
    LEGACY_MASKS[4],
    LEGACY_MASKS[5],
    ALL,
    ALL,
];

const MODERN_MASKS: [u64; PAIRS] = [
    0,
    ALL - ((1 << MODERN.offset.1) - 1) - ((1 << MODERN.param_count.1) - 1) * WORD,
    ALL - ((1 << MODERN.size.1) - 1) - ((1 << MODERN.name.1) - 1) * WORD,
    ALL - ((1 << MODERN.frame_size.1) - 1) * WORD,
    ALL - ((1 << MODERN.flags.1) - 1) + OVERFLOW - ((1 << MODERN.loop_depth.1) - 1) * WORD,
    ALL - ((1 << MODERN.number_reg.1) - 1) - ((1 << MODERN.non_ptr_reg.1) - 1) * WORD,
    ALL - ((1 << MODERN.read_cache.1) - 1) - ((1 << MODERN.write_cache.1) - 1) * WORD,
    ALL - ((1 << MODERN.new_object.1) - 1) - ((1 << MODERN.private_name.1) - 1) * WORD,
];

// What a loop over a table asks of each row, by layout: a type for each, so that the loop is compiled for each and no turn asks which it is.
pub(crate) trait Form {
    ghost LAYOUT: { Layout };

    ghost HEADER: { ℕ };

    ghost LARGE: { ℕ };

    const LAYOUT: Layout;

    // The bytes of a header, inline and large.
    const HEADER: usize;

    const LARGE: usize;

    // Whether row `id` is right and goes inline, as most do.
    fn is_plain(row: Row<'_>, id: u32) -> bool
        ensures { Plain LAYOUT id row.entry.words.now result };

    // Whether a row of a table that is right does; `all`: all its rows do.
    fn is_inline(row: Row<'_>, all: bool) -> bool
        requires id_value { all ≡ true → goes_inline LAYOUT row.words.now ≡ true }
        requires ended { Ended LAYOUT row.words.now }
        ensures { result ≡ goes_inline LAYOUT row.entry.words.now };

    ghost header_is: { HEADER ≡ size_of LAYOUT };

    ghost large_is: { LARGE ≡ large_of LAYOUT };
}

pub(crate) struct LegacyForm;

pub(crate) struct ModernForm;

impl Form for LegacyForm {
    ghost LAYOUT = { Legacy16 };

    ghost HEADER = { 16 };

    ghost LARGE = { 31 };

    const LAYOUT: Layout = Layout::Legacy16;

    const HEADER: usize = 16;

    const LARGE: usize = 31;

    fn is_plain(row: Row<'_>, id: u32) -> bool {
        if row.pair(0) != (id as u64) * WORD {
            return false;
        }
        row.is_clear(LEGACY_PLAIN)
    }

    // Not asked of a table in which all do.
    fn is_inline(row: Row<'_>, all: bool) -> bool {
        if all {
            return true;
        }
        row.is_clear(LEGACY_MASKS)
    }

    ghost header_is = { refl };

    ghost large_is = { refl };
}

impl Form for ModernForm {
    ghost LAYOUT = { Modern12 };

    ghost HEADER = { 12 };

    ghost LARGE = { 37 };

    const LAYOUT: Layout = Layout::Modern12;

    const HEADER: usize = 12;

    const LARGE: usize = 37;

    fn is_plain(row: Row<'_>, id: u32) -> bool {
        if row.pair(0) != (id as u64) * WORD + 1 {
            return false;
        }
        row.is_clear(MODERN_MASKS)
    }

    // The info_offset tells, since no row was refused 14.
    fn is_inline(row: Row<'_>, _all: bool) -> bool {
        row.word(ROW_INFO_OFFSET) == 0
    }

    ghost header_is = { refl };

    ghost large_is = { refl };
}
