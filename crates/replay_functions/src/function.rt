// Function tables. Asked: start, both ends of the span, words lent; layout, count or number. The answer: code, 0; of a table code, large, sizes.
use hbc_function_record::{Layout, WIDTH};
use hbc_io::Span;
use hbc_record::{
    Call, FILL, FILL_BYTE, NONE, answers, bytes_are, field_of, given, leaves, lent, lent_bytes,
    words_are,
};

// The totals as they are after the call are answered, those lent to it are given: field 4, 64 bits each.
pub(crate) fn read_functions(Call { record, s, n }: Call) -> bool {
    let mut table = [FILL; 256];
    let t = field_of(record, 4);
    let mut large = hbc_io::u64_at(t, 0);
    let mut sizes = hbc_io::u64_at(t, 8);
    let rows = lent(&mut table, n.d);
    let code = hbc_c_function::read_functions(s, n.p, n.a, n.q, rows, &mut large, &mut sizes);
    answers(record, code, large as usize, sizes as usize, NONE, NONE) & words_are(record, 3, &table)
}

pub(crate) fn refresh_functions(Call { record, s, n }: Call) -> bool {
    let mut table = [FILL; 256];
    let t = field_of(record, 4);
    let mut large = hbc_io::u64_at(t, 0);
    let mut sizes = hbc_io::u64_at(t, 8);
    let rows = lent(&mut table, n.d);
    let code = hbc_c_function::refresh_functions(
        s, n.p, n.a, n.q, n.b, n.c, rows, &mut large, &mut sizes,
    );
    answers(record, code, large as usize, sizes as usize, NONE, NONE) & words_are(record, 3, &table)
}

// A table read from the file before an edit, field 5, and refreshed from the file after it: the read's code is answered last.
pub(crate) fn read_refreshed(Call { record, s, n }: Call) -> bool {
    let mut table = [FILL; 256];
    let t = field_of(record, 4);
    let mut large = hbc_io::u64_at(t, 0);
    let mut sizes = hbc_io::u64_at(t, 8);
    let before = field_of(record, 5);
    let rows = lent(&mut table, n.d);
    let first = hbc_c_function::read_functions(before, n.p, n.a, n.q, rows, &mut large, &mut sizes);
    let again = lent(&mut table, n.d);
    let code = hbc_c_function::refresh_functions(
        s, n.p, n.a, n.q, n.b, n.c, again, &mut large, &mut sizes,
    );
    answers(
        record,
        code,
        large as usize,
        sizes as usize,
        first as usize,
        NONE,
    ) & words_are(record, 3, &table)
}

pub(crate) fn function_meets(Call { record, s, n }: Call) -> bool {
    let code = hbc_c_function::function_meets(s, n.p, n.a, n.q, n.b, n.c);
    answers(record, code, 0, NONE, NONE, NONE)
}

// The places where they are told: code, header, large header.
pub(crate) fn function_ground(Call { record, s, n }: Call) -> bool {
    let mut header: usize = 0;
    let mut large: usize = 0;
    let code = hbc_c_function::function_ground(s, n.p, n.a, n.q, &mut header, &mut large);
    answers(record, code, header, large, NONE, NONE)
}

// Asked: start, the place for large headers, 0, bytes lent; layout, count. The input is the rows' words.
pub(crate) fn write_functions(Call { record, n, .. }: Call) -> bool {
    let mut table = [0u32; 256];
    let rows = given(record, 1, &mut table);
    let mut buffer = [FILL_BYTE; 256];
    let b = lent_bytes(&mut buffer, n.d);
    let code = hbc_c_function::write_functions(rows, n.p, n.a, n.q, n.b, b);
    let all = Span { start: 0, len: n.d };
    answers(record, code, 0, NONE, NONE, NONE) & bytes_are(record, 3, hbc_io::part(&buffer, all))
}

// What is found itself, not the row that the boundary copies.
pub(crate) fn read_function(Call { record, s, n }: Call) -> bool {
    // a record has layout 0 or 1
    let layout = Layout::try_from(n.p).unwrap_or(Layout::Modern12);
    match hbc_function_header::read_function(s, layout, n.a, n.q) {
        Ok(found) => leaves(record, 1, 0, &hbc_function_record::row_words(found)),
        Err(r) => leaves(record, hbc_c_code::code(r), 0, &[FILL; WIDTH]),
    }
}
