// The cursor layer. Asked: the cursor; a length, a target or an alignment, or the value of a signed number or a float. The answer: code, cursor, value
// (1 if it is the one asked), or a span's start and length; then the mark, 1 exact, 0 not, or 2 where none is written.
use hbc_record::{Call, NONE, answers, same_float};

// What the mark holds before a call.
const UNMARKED: u32 = 2;

fn unsigned(Call { record, s, n }: Call) -> bool {
    let mut at = n.a;
    let mut a: u8 = 0;
    let mut b: u16 = 0;
    let mut c: u32 = 0;
    let mut d: u64 = 0;
    let mut exact = UNMARKED;
    let call = n.call;
    let code = match call {
        1 => hbc_c_io::read_u8(s, &mut at, &mut a),
        3 => hbc_c_io::read_u16(s, &mut at, &mut b),
        4 => hbc_c_io::read_u32(s, &mut at, &mut c),
        5 => hbc_c_io::read_u64(s, &mut at, &mut d),
        _ => hbc_c_io::read_uleb128(s, &mut at, &mut d, &mut exact),
    };
    // The others are 0.
    let value = a as u64 | b as u64 | c as u64 | d;
    answers(record, code, at, value as usize, exact as usize, NONE)
}

// Signed numbers and floats.
fn compared(Call { record, s, n }: Call) -> bool {
    let mut at = n.a;
    let mut a: i8 = 0;
    let mut b: i32 = 0;
    let mut c: i64 = 0;
    let mut d: f64 = 0.0;
    let mut exact = UNMARKED;
    let call = n.call;
    let code = match call {
        2 => hbc_c_io::read_i8(s, &mut at, &mut a),
        6 => hbc_c_io::read_i32(s, &mut at, &mut b),
        7 => hbc_c_io::read_f64(s, &mut at, &mut d),
        _ => hbc_c_io::read_sleb128(s, &mut at, &mut c, &mut exact),
    };
    let want = n.b as u64;
    let same = match call {
        2 => a == hbc_io::signed8((want % 0x100) as u8),
        6 => b == hbc_io::signed32((want % 0x1_0000_0000) as u32),
        7 => same_float(d, want),
        _ => c == hbc_io_leb::signed64(want),
    };
    answers(record, code, at, same as usize, exact as usize, NONE)
}

// The answer besides: a span's start and length, or 0 and 0.
fn places(Call { record, s, n }: Call) -> bool {
    let mut at = n.a;
    let mut start: usize = 0;
    let mut more: usize = 0;
    let mut exact = UNMARKED;
    let call = n.call;
    let code = match call {
        10 => hbc_c_io::read_cstring(s, &mut at, &mut start, &mut more),
        11 => {
            hbc_c_io::read_length_prefixed_string(s, &mut at, &mut start, &mut more, &mut exact)
        }
        12 => hbc_c_io::read_bytes(s, &mut at, n.b, &mut start, &mut more),
        13 => hbc_c_io::seek(s, &mut at, n.b),
        _ => hbc_c_io::align(s, &mut at, n.b),
    };
    answers(record, code, at, start, more, exact as usize)
}

pub(crate) fn judge(call: Call) -> bool {
    if 9 < call.n.call {
        return places(call);
    }
    match call.n.call {
        2 | 6 | 7 | 9 => compared(call),
        _ => unsigned(call),
    }
}
