// The two inline headers, bit by bit: of each field its first bit and its width, in the order in which a header holds them. The readers cut by these lists,
// the writer puts by them, and specs/BitLayout.antt has the same two.
ghost use Rattle.std.specs.Prelude.{◌≡◌};
ghost use Rattle.hbc_function_record.specs.BitLayout.{legacy_bits, modern_bits};

// A field: its first bit, and how many bits it has.
#[derive(Clone, Copy)]
pub struct Field(pub u32, pub u32);

#[derive(Clone, Copy)]
pub struct LegacyBits {
    pub offset: Field,
    pub param_count: Field,
    pub size: Field,
    pub name: Field,
    pub info_offset: Field,
    pub frame_size: Field,
    pub environment_size: Field,
    pub read: Field,
    pub write: Field,
    pub flags: Field,
}

#[derive(Clone, Copy)]
pub struct ModernBits {
    pub offset: Field,
    pub param_count: Field,
    pub loop_depth: Field,
    pub size: Field,
    pub name: Field,
    pub number_reg: Field,
    pub non_ptr_reg: Field,
    pub frame_size: Field,
    pub read_cache: Field,
    pub write_cache: Field,
    pub new_object: Field,
    pub private_name: Field,
    pub flags: Field,
}

// Bits 0 to 127.
pub const LEGACY: LegacyBits = LegacyBits {
    offset: Field(0, 25),
    param_count: Field(25, 7),
    size: Field(32, 15),
    name: Field(47, 17),
    info_offset: Field(64, 25),
    frame_size: Field(89, 7),
    environment_size: Field(96, 8),
    read: Field(104, 8),
    write: Field(112, 8),
    flags: Field(120, 8),
};

// Bits 0 to 95.
pub const MODERN: ModernBits = ModernBits {
    offset: Field(0, 25),
    param_count: Field(25, 5),
    loop_depth: Field(30, 2),
    size: Field(32, 14),
    name: Field(46, 8),
    number_reg: Field(54, 5),
    non_ptr_reg: Field(59, 5),
    frame_size: Field(64, 8),
    read_cache: Field(72, 8),
    write_cache: Field(80, 6),
    new_object: Field(86, 1),
    private_name: Field(87, 1),
    flags: Field(88, 8),
};

// The bit of the flags that says that there is a large header.
pub const OVERFLOW_BIT: u32 = 5;

// The lists as answers: that they are those of specs/ is said here.
pub fn legacy_bits() -> LegacyBits
    ensures { result ≡ legacy_bits }
{
    LEGACY
}

pub fn modern_bits() -> ModernBits
    ensures { result ≡ modern_bits }
{
    MODERN
}
