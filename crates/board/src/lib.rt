// The board before verdicts: its form, its keys, a dealer's lines and opening.
#![tactic(auto)]

mod form;
mod keys;
mod parts;
mod search;

pub use keys::{board_keys, check_board};
pub use parts::{dealer_lines, lines_check, lines_of};
pub use search::{find_key, find_opening, place_of, record_count};
