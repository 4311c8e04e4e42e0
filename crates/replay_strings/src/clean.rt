// Bundles. Asked: start; layout, count, strings. Given: kind runs, small entries, overflow words, storage, keys, values, series. The answer: code, place.
use hbc_record::{Call, FILL, NONE, answers, field_of, given};

// The file is the input; a place that the call leaves is the fill.
pub(crate) fn check_bundle(Call { record, s, n }: Call) -> bool {
    let mut runs = [0u32; 64];
    let kinds = given(record, 3, &mut runs);
    let mut entries = [0u32; 64];
    let small = given(record, 4, &mut entries);
    let mut pairs = [0u32; 64];
    let overflow = given(record, 5, &mut pairs);
    let mut rows = [0u32; 64];
    let series = given(record, 9, &mut rows);
    let mut place = FILL;
    let code = hbc_c_clean::check_bundle(
        s,
        n.p,
        n.a,
        n.q,
        kinds,
        n.r,
        small,
        overflow,
        field_of(record, 6),
        field_of(record, 7),
        field_of(record, 8),
        series,
        &mut place,
    );
    answers(record, code, place as usize, NONE, NONE, NONE)
}
