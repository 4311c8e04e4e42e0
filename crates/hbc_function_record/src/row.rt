// The words of a row, by layout: the record's, then the place of its large header.
ghost use Rattle.std.specs.Prelude.{◌≡◌};
ghost use Rattle.hbc_function_record.specs.declared.Record.TheVariants as rec;
ghost use Rattle.hbc_function_record.specs.Row.{found_at, row_words};

use crate::{Legacy, Modern, WIDTH};

#[tactic(auto, unfolding(crate::specs::Row::legacy_words, crate::specs::Row::row_words))]
pub(crate) fn legacy_words(r: Legacy, place: u32) -> [u32; WIDTH]
    ensures { result ≡ row_words (found_at place (rec.Legacy r)) }
{
    [
        0,
        r.id,
        r.offset,
        r.param_count,
        r.size,
        r.name,
        r.info_offset,
        r.frame_size,
        r.flags,
        r.environment_size,
        r.read,
        r.write,
        0,
        0,
        0,
        0,
        place,
    ]
}

#[tactic(auto, unfolding(crate::specs::Row::modern_words, crate::specs::Row::row_words))]
pub(crate) fn modern_words(r: Modern, place: u32) -> [u32; WIDTH]
    ensures { result ≡ row_words (found_at place (rec.Modern r)) }
{
    [
        1,
        r.id,
        r.offset,
        r.param_count,
        r.size,
        r.name,
        r.info_offset,
        r.frame_size,
        r.flags,
        r.loop_depth,
        r.number_reg,
        r.non_ptr_reg,
        r.read_cache,
        r.write_cache,
        r.new_object,
        r.private_name,
        place,
    ]
}
