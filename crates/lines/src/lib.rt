// A dealing's n records, as lines and as columns.
#![tactic(auto)]

mod figures;
mod form;

pub use figures::{put_lines, read_lines};
pub use form::check_lines;

// The figures of a dealing's lines: v, Y, r and c of each member, and 0 behind them. By columns, for so they are hashed and tested; in
// arrays, for nothing is allocated.
#[derive(Clone, Copy)]
pub struct Columns {
    pub vs: [u32; 31],
    pub encrypted: [u32; 31],
    pub rs: [u32; 31],
    pub cs: [u32; 31],
}
