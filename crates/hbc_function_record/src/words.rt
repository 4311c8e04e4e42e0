// A word of four bytes, and a field of two words.
ghost use Rattle.std.specs.Prelude.{◌≡◌, ◌+◌, ◌*◌, ◌^◌, ◌≤◌, ◌<◌, length};
ghost use Rattle.hbc_bits.specs.Bits.{le_at, field};
ghost use Rattle.hbc_function_record.specs.Private.{Within};

use crate::bit_layout::Field;
use hbc_bits::bits;

fn wide(b: u8) -> u32
    ensures { (result ≡ b) × (result < 256) }
{
    b as u32
}

// The u32 at a place whose four bytes are there: with no test and no loop it is compiled to one load before its callers take it in.
#[tactic(auto, using(hbc_bits::proofs::Laws::le_four))]
pub(crate) fn word_here(s: &[u8], at: usize) -> u32
    requires { at + 4 ≤ length s.now }
    ensures { result ≡ le_at s.now at 4 }
{
    wide(s[at])
        + wide(s[at + 1]) * 0x100
        + wide(s[at + 2]) * 0x1_0000
        + wide(s[at + 3]) * 0x100_0000
}

// A field of lo + 2^64 * hi. It lies in one word of 32 bits, and so does not cross bit 64.
#[tactic(auto, using(hbc_bits::proofs::Laws::field_lt))]
pub(crate) fn cut(lo: u64, hi: u64, f: Field) -> u32
    requires { Within f.0 f.1 }
    ensures { result ≡ field f.0 f.1 (lo + 2 ^ 64 * hi) }
{
    if f.0 < 64 {
        bits(lo, f.0, f.1) as u32
    } else {
        bits(hi, f.0 - 64, f.1) as u32
    }
}
