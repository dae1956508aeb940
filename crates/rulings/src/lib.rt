// From a table of groups, a round and a board to one answer: the refusal, or the setting and the judgement. Whatever prints,
// hands on or audits a judged board starts here.
#![tactic(auto)]

ghost use Rattle.std.specs.Prelude.{◌≡◌};
ghost use Rattle.words.specs.Checks.{outcome};
ghost use Rattle.sharing.specs.Setting.{ProperSetting};
ghost use Rattle.verdicts.specs.Shares.{judges};
ghost use Rattle.rulings.specs.Files.{set_checks, file_checks, files_outcome};
ghost use Rattle.rulings.specs.Ruling.{JudgedIn, JudgementOf, RulingOf};

use board::check_board;
use group::check_table;
use records::is_set_record;
use sharing::{Round, Setting, setting_in, setting_of};
use verdicts::{Judgement, all_verdicts};
use words::{Refusal, read_record};

// The setting, and the judgement on the board in it.
#[derive(Clone, Copy)]
pub struct Ruling {
    pub setting: Setting,
    pub judgement: Judgement,
}

// Judges a board in a setting: 3, 4, 17, 5, 12, 6 and 22 as check_board, then its verdicts.
// Internal: callers ensure that the setting is proper.
fn judge_in(s: Setting, board: &[u8]) -> Result<Judgement, Refusal>
    requires { ProperSetting s }
    ensures { JudgedIn judges s board.now result }
{
    check_board(s, board)?;
    Ok(all_verdicts(s, board))
}

// Judges a board. Refused, with no verdict: as setting_of; 3, 4, 17, 5, 12, 6 and 22 as check_board. In the judgement's draw, after all
// verdicts: 14 fewer than t accepted dealings; 13 a stuck dealing, where fewer than t added shares are accepted.
pub fn judge_board(table: &[u8], rd: Round, board: &[u8]) -> Result<Judgement, Refusal>
    ensures { JudgementOf judges table.now rd board.now result }
{
    let s = setting_of(table, rd)?;
    judge_in(s, board)
}

// What the bytes of round.set are refused by: 3 not one record; 4 another shape.
fn check_set(set: &[u8]) -> Result<(), Refusal>
    ensures { result ≡ outcome (set_checks set.now) tt }
{
    if set.len() != 32 {
        return Err(Refusal::BadLength);
    }
    let r = read_record(set);
    if !is_set_record(r) {
        return Err(Refusal::BadForm);
    }
    Ok(())
}

// What the bytes of groups.tab and of round.set are refused by: 3, 4, 20 and 21 the table, as check_table; 3 and 4 the set.
fn check_files(table: &[u8], set: &[u8]) -> Result<(), Refusal>
    ensures { result ≡ outcome (file_checks table.now set.now) tt }
{
    check_table(table)?;
    check_set(set)
}

// The setting of the round that the set names. Refused: as check_files; 1 and 2 as setting_in.
fn files_setting(table: &[u8], set: &[u8]) -> Result<Setting, Refusal>
    ensures { result ≡ files_outcome table.now set.now }
{
    check_files(table, set)?;
    let r = read_record(set);
    let rd = Round {
        group: r.w1,
        n: r.w2,
        t: r.w3,
        round: r.w4,
        first_new_round: r.w5,
    };
    setting_in(table, rd)
}

// Judges the bytes of groups.tab, of round.set and of board.bin. Refused, with no verdict: as files_setting; 3, 4, 17, 5, 12, 6 and 22 as
// check_board. In the judgement's draw, after all verdicts, as judge_board.
pub fn judge_files(table: &[u8], set: &[u8], board: &[u8]) -> Result<Ruling, Refusal>
    ensures { RulingOf judges table.now set.now board.now result }
{
    let setting = files_setting(table, set)?;
    let judgement = judge_in(setting, board)?;
    Ok(Ruling { setting, judgement })
}
