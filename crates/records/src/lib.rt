// What stands on a board: one layout for each kind of record, and keys.
#![tactic(auto)]

mod keys;
mod layout;

pub use keys::{all_keys, check_keys, is_key, is_secret_key};
pub use layout::{
    ADDED, KEY, LINE, OPENING, SET, SHARE, is_key_record, is_line_record, is_of_round,
    is_opening_record, is_set_record, is_share_record, key_record, line_record, opening_record,
    set_record, share_record,
};
