// Debug sections. Asked: words lent in four tables; offset. The answer: code, four counts; then the tables, and the mark as one of a word.
use hbc_record::{Call, FILL, answers, lent, words_are};

fn are_left(
    record: &[u8],
    strings: &[u32],
    scopes: &[u32],
    names: &[u32],
    callees: &[u32],
    mark: &[u32],
) -> bool {
    words_are(record, 3, strings)
        & words_are(record, 4, scopes)
        & words_are(record, 5, names)
        & words_are(record, 6, callees)
        & words_are(record, 7, mark)
}

pub(crate) fn read_debug(Call { record, s, n }: Call) -> bool {
    let mut strings = [FILL; 96];
    let mut scopes = [FILL; 160];
    let mut names = [FILL; 96];
    let mut callees = [FILL; 96];
    let mut a: usize = 0;
    let mut b: usize = 0;
    let mut c: usize = 0;
    let mut d: usize = 0;
    let mut exact = FILL;
    let code = hbc_c_debug::read_debug(
        s,
        n.p,
        lent(&mut strings, n.a),
        lent(&mut scopes, n.b),
        lent(&mut names, n.c),
        lent(&mut callees, n.d),
        &mut a,
        &mut b,
        &mut c,
        &mut d,
        &mut exact,
    );
    let mark = [exact];
    answers(record, code, a, b, c, d) & are_left(record, &strings, &scopes, &names, &callees, &mark)
}
