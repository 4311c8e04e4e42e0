// The clean-bundle profile.
ghost use Rattle.hbc_c_clean.specs.Clean.{ToldBundle};

// A series' row: which buffer, 0 the values and any other number the keys, its offset there, its count of values.
pub fn hbc_check_bundle(
    file: &[u8],
    layout: u32,
    start: usize,
    count: u32,
    kinds: &[u32],
    strings: u32,
    small: &[u32],
    overflow: &[u32],
    storage: &[u8],
    keys: &[u8],
    values: &[u8],
    series: &[u32],
    place: &mut u32,
) -> u64
    ensures { ToldBundle file.now layout start count kinds.now strings small.now overflow.now
        storage.now keys.now values.now series.now place.old result place.new }
{
    hbc_c_clean::check_bundle(
        file, layout, start, count, kinds, strings, small, overflow, storage, keys, values, series,
        place,
    )
}
