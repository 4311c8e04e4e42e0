// The calls on literals.
ghost use Rattle.hbc_c_buffer.specs.Buffer.{ToldLiteral, ToldSeries, ToldObject};

pub fn hbc_read_literal(
    s: &[u8],
    at: &mut usize,
    tag: u8,
    kind: &mut u32,
    number: &mut f64,
    word: &mut u32,
) -> u64
    ensures { ToldLiteral tag s.now at.old kind.old number.old word.old
        result at.new kind.new number.new word.new }
{
    hbc_c_buffer::read_literal(s, at, tag, kind, number, word)
}

pub fn hbc_read_series(
    s: &[u8],
    offset: u32,
    count: u32,
    kinds: &mut [u32],
    payloads: &mut [u64],
) -> u64
    ensures { ToldSeries s.now offset count kinds.old payloads.old result kinds.new payloads.new }
{
    hbc_c_buffer::read_series(s, offset, count, kinds, payloads)
}

// `yes` other than 0 names the keys. The bytes used stand at `offset` of the named buffer.
pub fn hbc_read_object(
    keys: &[u8],
    values: &[u8],
    yes: u32,
    offset: u32,
    count: u32,
    kinds: &mut [u32],
    payloads: &mut [u64],
) -> u64
    ensures { ToldObject keys.now values.now yes offset count kinds.old payloads.old
        result kinds.new payloads.new }
{
    hbc_c_buffer::read_object(keys, values, yes, offset, count, kinds, payloads)
}
