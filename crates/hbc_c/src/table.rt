// The calls on string tables.
ghost use Rattle.hbc_table_strings.specs.declared.Mode.TheVariants.{InOrder, Hermes};
ghost use Rattle.hbc_c_table.specs.Table.{ToldTable, ToldStrings, ToldPart};

use hbc_table_strings::Mode;

pub fn hbc_read_u32_table(s: &[u8], at: &mut usize, count: u32, table: &mut [u32]) -> u64
    ensures { ToldTable 1 s.now at.old count table.old result at.new table.new }
{
    hbc_c_table::read_u32_table(s, at, count, table)
}

pub fn hbc_read_pair_table(s: &[u8], at: &mut usize, count: u32, table: &mut [u32]) -> u64
    ensures { ToldTable 2 s.now at.old count table.old result at.new table.new }
{
    hbc_c_table::read_pair_table(s, at, count, table)
}

// Accepted, the answer is the number of rows written.
pub fn hbc_decode_strings(
    count: u32,
    kinds: &[u32],
    small: &[u32],
    overflow: &[u32],
    storage: &[u8],
    rows: &mut [u32],
) -> u64
    ensures { ToldStrings InOrder count kinds.now small.now overflow.now storage.now rows.old
        result rows.new }
{
    hbc_c_table::decode_strings(Mode::InOrder, count, kinds, small, overflow, storage, rows)
}

// The same with pairs and runs as Hermes chooses them.
pub fn hbc_decode_strings_hermes(
    count: u32,
    kinds: &[u32],
    small: &[u32],
    overflow: &[u32],
    storage: &[u8],
    rows: &mut [u32],
) -> u64
    ensures { ToldStrings Hermes count kinds.now small.now overflow.now storage.now rows.old
        result rows.new }
{
    hbc_c_table::decode_strings(Mode::Hermes, count, kinds, small, overflow, storage, rows)
}

// A part does not cross the boundary: the caller takes it out of the storage by its start and length.
pub fn hbc_string_bytes(
    storage: &[u8],
    rows: &[u32],
    index: usize,
    start: &mut usize,
    len: &mut usize,
)
    ensures { ToldPart storage.now rows.now index start.new len.new }
{
    hbc_c_table::string_bytes(storage, rows, index, start, len)
}
