// String tables.
use hbc_io::Span;
use hbc_record::{
    Call, FILL, FILL_BYTE, NONE, answers, bytes_are, given, leaves, lent, lent_bytes,
};
use hbc_table_strings::Mode;

// Asked: cursor, words lent; count. The answer: code, cursor.
pub(crate) fn read_u32_table(Call { record, s, n }: Call) -> bool {
    let mut table = [FILL; 128];
    let mut at = n.a;
    let code = hbc_c_table::read_u32_table(s, &mut at, n.p, lent(&mut table, n.b));
    leaves(record, code, at, &table)
}

pub(crate) fn read_pair_table(Call { record, s, n }: Call) -> bool {
    let mut table = [FILL; 128];
    let mut at = n.a;
    let code = hbc_c_table::read_pair_table(s, &mut at, n.p, lent(&mut table, n.b));
    leaves(record, code, at, &table)
}

// Asked: words lent; count. Given: kind runs, small entries, overflow words.
pub(crate) fn decode_strings(Call { record, s, n }: Call, mode: Mode) -> bool {
    let mut runs = [0u32; 64];
    let kinds = given(record, 4, &mut runs);
    let mut entries = [0u32; 64];
    let small = given(record, 5, &mut entries);
    let mut pairs = [0u32; 64];
    let overflow = given(record, 6, &mut pairs);
    let mut rows = [FILL; 128];
    let t = lent(&mut rows, n.a);
    let code = hbc_c_table::decode_strings(mode, n.p, kinds, small, overflow, s, t);
    leaves(record, code, 0, &rows)
}

// Asked: a row's number. Given: the rows. The answer: start and length; then the bytes.
pub(crate) fn string_bytes(Call { record, s, n }: Call) -> bool {
    let mut table = [0u32; 64];
    let rows = given(record, 4, &mut table);
    let p = hbc_table_bytes::string_span(s, rows, n.a);
    let part = hbc_table_bytes::string_bytes(s, rows, n.a);
    answers(record, p.start as u64, p.len, NONE, NONE, NONE) & bytes_are(record, 3, part)
}

// Asked: a row's number, bytes lent. Given: the rows. The answer: code, 0; then the buffer.
pub(crate) fn string_text(Call { record, s, n }: Call) -> bool {
    let mut table = [0u32; 64];
    let rows = given(record, 4, &mut table);
    let mut buffer = [FILL_BYTE; 256];
    let code = hbc_c_text::string_text(s, rows, n.a, lent_bytes(&mut buffer, n.b));
    let all = Span { start: 0, len: n.b };
    answers(record, code, 0, NONE, NONE, NONE) & bytes_are(record, 3, hbc_io::part(&buffer, all))
}
