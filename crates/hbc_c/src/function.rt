// The calls on function headers.
ghost use Rattle.hbc_function.specs.Table.{lent};
ghost use Rattle.hbc_c_function.specs.Function.{ToldFunctions, ToldRefresh, ToldWrite, ToldFunction, ToldGround, ToldMeets, places};

pub fn hbc_read_functions(
    file: &[u8],
    layout: u32,
    start: usize,
    count: u32,
    table: &mut [u32],
    large: &mut u64,
    sizes: &mut u64,
) -> u64
    ensures { ToldFunctions file.now layout start count (lent table.old large.old sizes.old)
        result (lent table.new large.new sizes.new) }
{
    hbc_c_function::read_functions(file, layout, start, count, table, large, sizes)
}

pub fn hbc_refresh_functions(
    file: &[u8],
    layout: u32,
    start: usize,
    count: u32,
    low: usize,
    high: usize,
    table: &mut [u32],
    large: &mut u64,
    sizes: &mut u64,
) -> u64
    ensures { ToldRefresh file.now layout start count low high (lent table.old large.old sizes.old)
        result (lent table.new large.new sizes.new) }
{
    hbc_c_function::refresh_functions(file, layout, start, count, low, high, table, large, sizes)
}

// The headers of lent rows into a lent buffer.
pub fn hbc_write_functions(
    rows: &[u32],
    layout: u32,
    start: usize,
    count: u32,
    large: usize,
    buffer: &mut [u8],
) -> u64
    ensures { ToldWrite rows.now layout start count large buffer.old result buffer.new }
{
    hbc_c_function::write_functions(rows, layout, start, count, large, buffer)
}

// One function, into the first row of the table.
pub fn hbc_read_function(file: &[u8], layout: u32, start: usize, id: u32, table: &mut [u32]) -> u64
    ensures { ToldFunction file.now layout start id table.old result table.new }
{
    hbc_c_function::read_function(file, layout, start, id, table)
}

// Where function `id` is read from: the place of its header, and that of its large one or 2^64 - 1.
pub fn hbc_function_ground(
    file: &[u8],
    layout: u32,
    start: usize,
    id: u32,
    header: &mut usize,
    large: &mut usize,
) -> u64
    ensures { ToldGround file.now layout start id (places header.old large.old)
        result (places header.new large.new) }
{
    hbc_c_function::function_ground(file, layout, start, id, header, large)
}

// 1 if function `id` meets the bytes from low up to high, 0 if not.
pub fn hbc_function_meets(
    file: &[u8],
    layout: u32,
    start: usize,
    id: u32,
    low: usize,
    high: usize,
) -> u64
    ensures { ToldMeets file.now layout start id low high result }
{
    hbc_c_function::function_meets(file, layout, start, id, low, high)
}
