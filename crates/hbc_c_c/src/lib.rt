// The archive libhbc_c.a for C and Rust (include/hbc.h): each call of hbc_c under its own name and its own promise, its parameters apart, as C has them.
#![tactic(auto)]

pub mod buffer;
pub mod clean;
pub mod debug;
pub mod function;
pub mod io;
pub mod parsing;
pub mod table;
pub mod text;
