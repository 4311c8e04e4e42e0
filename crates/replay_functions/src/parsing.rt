// Handlers and trailing sections.
use hbc_record::{Call, FILL, NONE, answers, given, leaves, lent};

// Asked: words lent; count. Given: the functions' words. The answer: code, rows.
pub(crate) fn read_handlers(Call { record, s, n }: Call) -> bool {
    let mut table = [0u32; 112];
    let functions = given(record, 4, &mut table);
    let mut rows = [FILL; 128];
    let mut total: usize = 0;
    let code = hbc_c_parsing::read_handlers(s, functions, n.p, lent(&mut rows, n.a), &mut total);
    leaves(record, code, total, &rows)
}

// Asked: the function. Given: the functions' words. The answer: code, handlers, which are the fill where they are not written.
pub(crate) fn why_no_handlers(Call { record, s, n }: Call) -> bool {
    let mut table = [0u32; 112];
    let functions = given(record, 3, &mut table);
    let mut handlers = FILL;
    let code = hbc_c_parsing::why_no_handlers(s, functions, n.p, &mut handlers);
    answers(record, code, handlers as usize, NONE, NONE, NONE)
}

// Asked: start, 1 where sources are given, words lent; four counts.
pub(crate) fn trailing_sections(Call { record, s, n }: Call) -> bool {
    let mut rows = [FILL; 24];
    let t = lent(&mut rows, n.c);
    let code = hbc_c_parsing::trailing_sections(s, n.a, n.p, n.q, n.r, n.b == 1, n.s, t);
    leaves(record, code, 0, &rows)
}
