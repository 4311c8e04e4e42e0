// The public calls for C and Rust: numbers, and slices as a pointer and a count. Each is a line over the boundary code of its layer (hbc_c_io,
// hbc_c_function, ..), where it is proved; parameters that go together stay apart, as C has them.
// hbc_c_c exports them: an archive exports the functions of one crate alone, which no crate can name.
#![tactic(auto)]

pub mod buffer;
pub mod clean;
pub mod debug;
pub mod function;
pub mod io;
pub mod parsing;
pub mod table;
pub mod text;
