// One bit field of a word.
#![tactic(auto)]

ghost use Rattle.std.specs.Prelude.{◌≡◌};
ghost use Rattle.hbc_bits.specs.Bits.{field};

// The `width` bits of a word from bit `first` up, as a number. Bits past the word are 0, so that every first bit and width has an answer.
pub fn bits(word: u64, first: u32, width: u32) -> u64
    ensures { result ≡ field first width word }
{
    if 64 <= first {
        return 0;
    }
    if 64 <= width {
        return word >> first;
    }
    let one: u64 = 1;
    (word >> first) % (one << width)
}
