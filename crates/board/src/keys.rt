// The members' keys, and what is refused before verdicts.
ghost use Rattle.std.specs.Prelude.{◌≡◌, true, ◌≤◌};
ghost use Rattle.words.specs.Lists.{all, filled};
ghost use Rattle.words.specs.Checks.{outcome};
ghost use Rattle.sharing.specs.Setting.{ProperSetting, members};
ghost use Rattle.board.specs.Board.{has_key, keys_in, board_key_checks, board_checks};
ghost use Rattle.board.specs.Loops.{found_keys};
ghost use Rattle.board.specs.Sorted.{Sorted};

use crate::form::check_form;
use crate::search::{find_key, record_count};
use records::check_keys;
use sharing::Setting;
use words::{Refusal, record_at};

// The members' keys as they are found, one search for each, and 0 behind them; none where one is missing.
// Internal: callers ensure that there are at most 31 members and that the records ascend.
fn found_keys(b: &[u8], n: u32) -> Option<[u32; 31]>
    requires { (n ≤ 31) × (Sorted b.now) }
    ensures { result ≡ found_keys n b.now }
{
    let mut ys = [0; 31];
    for i in 0..n {
        let place = find_key(b, i + 1);
        if place >= record_count(b) {
            return None;
        }
        ys[i as usize] = record_at(b, place).w3;
    }
    Some(ys)
}

// The members' keys, and 0 behind them.
// Internal: callers ensure that there are at most 31 members, that each has a key record, and that the records ascend.
#[tactic(auto, using(crate::proofs::KeyRecords::keys_found))]
pub fn board_keys(b: &[u8], n: u32) -> [u32; 31]
    requires { (n ≤ 31) × (all (has_key b.now) (members n) ≡ true) × (Sorted b.now) }
    ensures { result ≡ filled 31 (keys_in n b.now) }
{
    found_keys(b, n).unwrap()
}

// What the keys are refused by: 12 a key missing; 6 a bad key; 22 two equal keys.
// Internal: callers ensure that the setting is proper and that the records ascend.
#[tactic(auto, using(crate::proofs::KeyRecords::some_found, crate::proofs::KeyRecords::none_found), unfolding(crate::specs::Board::board_key_checks))]
fn check_board_keys(s: Setting, b: &[u8]) -> Result<(), Refusal>
    requires { (ProperSetting s) × (Sorted b.now) }
    ensures { result ≡ outcome (board_key_checks s b.now) tt }
{
    let Some(ys) = found_keys(b, s.n) else {
        return Err(Refusal::Incomplete);
    };
    check_keys(s.group, &ys[..s.n as usize])
}

// What a board is refused by before verdicts: 3, 4, 17 and 5 its form; 12, 6 and 22 its keys.
// Internal: callers ensure that the setting is proper.
pub fn check_board(s: Setting, b: &[u8]) -> Result<(), Refusal>
    requires { ProperSetting s }
    ensures { result ≡ outcome (board_checks s b.now) tt }
{
    check_form(s, b)?;
    check_board_keys(s, b)
}
