//! What a transcript is, whatever its lines mean: lines, fields, the script of a grammar, and hex digits.
#![tactic(auto)]

mod buffer;
mod hex_field;
mod laws;
mod lines;
mod number;
#[cfg(test)]
mod tests;

pub use hex_field::{decode, push_hex};
pub use laws::{number_law, script_laws};
pub use lines::{Lines, MAX_LINE, MAX_LINES, Next};
pub use number::{parse_u32, parse_u64};
