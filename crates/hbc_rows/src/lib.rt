// What the layers share of lent tables of words: a word that may not be there, a field of a word, a row
// of any width put at its place, words put from a place on.
// All of it is total, so that a caller has nothing to prove and nothing to match.
#![tactic(auto)]

ghost use Rattle.std.specs.Prelude.{◌≡◌, ◌+◌, ◌≤◌, length};
ghost use Rattle.std.proofs.lemmas.List.Edits.{sets};
ghost use Rattle.hbc_bits.specs.Bits.{field};
ghost use Rattle.hbc_rows.specs.Rows.{entry_at, put_row};

// Word `i` of a table, 0 where there is none.
#[tactic(auto, unfolding(crate::specs::Rows::entry_at))]
pub fn word_of(t: &[u32], i: usize) -> u32
    ensures { result ≡ entry_at t.now i }
{
    t.get(i).copied().unwrap_or(0)
}

// The `width` bits of a table's word from bit `first` up.
pub fn field_of(word: u32, first: u32, width: u32) -> u32
    ensures { result ≡ field first width word }
{
    hbc_bits::bits(word as u64, first, width) as u32
}

// Stores words that there is room for.
fn store(t: &mut [u32], at: usize, row: &[u32])
    requires { at + length row.now ≤ length t.old }
    ensures { t.new ≡ sets t.old at row.now }
{
    t[at..at + row.len()].copy_from_slice(row);
}

// Row `k` of the table, all rows being as wide as this one, if the table has such a row; else nothing is written.
pub fn put_row(t: &mut [u32], k: usize, row: &[u32])
    ensures { t.new ≡ put_row (length row.now) t.old k row.now }
{
    let w = row.len();
    if w == 0 {
        return;
    }
    if k < t.len() / w {
        store(t, k * w, row);
    }
}

// Stores a row's words from `at` on, those that there is room for.
pub fn put_words(t: &mut [u32], at: usize, row: &[u32])
    ensures { t.new ≡ sets t.old at row.now }
{
    if t.len() < at {
        return;
    }
    let room = t.len() - at;
    if room < row.len() {
        store(t, at, &row[..room]);
        return;
    }
    // the length is the caller's, and so a constant where the caller's row is an array
    store(t, at, row);
}
