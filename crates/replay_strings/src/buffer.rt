// Literals.
use hbc_buffer_object::Object;
use hbc_io::Refusal;
use hbc_record::{
    Call, FILL, FILL_LONG, answers, are, bytes_are, field_of, leaves, lent, lent_longs, same_float,
    words_are,
};

// Asked: cursor, tag, a float's bits. The answer: code, cursor, kind, word, 1 if the float is the one asked.
pub(crate) fn read_literal(Call { record, s, n }: Call) -> bool {
    let mut at = n.a;
    let mut kind: u32 = 0;
    let mut number: f64 = 0.0;
    let mut word: u32 = 0;
    let tag = (n.b % 0x100) as u8;
    let code = hbc_c_buffer::read_literal(s, &mut at, tag, &mut kind, &mut number, &mut word);
    let same = same_float(number, n.c as u64);
    answers(
        record,
        code,
        at,
        kind as usize,
        word as usize,
        same as usize,
    )
}

// Asked: words lent of kinds and of payloads; offset, count.
pub(crate) fn read_series(Call { record, s, n }: Call) -> bool {
    let mut kinds = [FILL; 320];
    let mut payloads = [FILL_LONG; 320];
    let code = hbc_c_buffer::read_series(
        s,
        n.p,
        n.q,
        lent(&mut kinds, n.a),
        lent_longs(&mut payloads, n.b),
    );
    leaves(record, code, 0, &kinds) & are(record, 4, &payloads)
}

// Whether an object's answer is the one listed, and its part the bytes recorded. A refused one is listed by its refusal, in the buffer that was asked for,
// with no bytes.
fn is(record: &[u8], keys: bool, answer: Result<Object, Refusal>) -> bool {
    let (number, place) = match answer {
        Ok(_) => (0, 0),
        Err(r) => (r.number as u64, r.place as usize),
    };
    let o = hbc_buffer_object::object_in(keys, answer);
    let part = hbc_buffer_object::object_part(field_of(record, 1), field_of(record, 5), o);
    answers(record, number, place, o.start, o.len, o.yes as usize) & bytes_are(record, 6, part)
}

// Asked besides: 1 for keys, 0 for values. The keys are the input, the values stand behind the tables.
pub(crate) fn read_object(Call { record, s, n }: Call) -> bool {
    let mut kinds = [FILL; 320];
    let mut payloads = [FILL_LONG; 320];
    let keys = n.c == 1;
    let answer = hbc_buffer_object::read_object(
        s,
        field_of(record, 5),
        keys,
        n.p,
        n.q,
        lent(&mut kinds, n.a),
        lent_longs(&mut payloads, n.b),
    );
    is(record, keys, answer) & words_are(record, 3, &kinds) & are(record, 4, &payloads)
}
