// The setting that a table and a round's figures give.
ghost use Rattle.std.specs.Prelude.{◌≡◌};
ghost use Rattle.sharing.specs.Setting.{takes_whole, in_range, figures_outcome, setting_outcome};

use crate::{Round, Setting};
use group::{check_table, group_in};
use words::Refusal;

// n from 1 to 31 and below q, t from 1 to n
#[tactic(auto, unfolding(crate::specs::Setting::in_range))]
fn in_range(q: u32, n: u32, t: u32) -> bool
    ensures { result ≡ in_range q n t }
{
    1 <= n && n <= 31 && n < q && 1 <= t && t <= n
}

// Whether exponents come from the whole digest: the first round under this rule is not 0, and the round is not below it.
#[tactic(auto, unfolding(crate::specs::Setting::takes_whole))]
fn takes_whole(first: u32, round: u32) -> bool
    ensures { result ≡ takes_whole first round }
{
    first != 0 && first <= round
}

// Judges a round's figures, and answers the setting. Refused: 1 no group of that number; 2 n or t outside its range.
// Internal: callers have judged the table.
pub fn setting_in(table: &[u8], rd: Round) -> Result<Setting, Refusal>
    ensures { result ≡ figures_outcome table.now rd }
{
    let gr = group_in(table, rd.group)?;
    if !in_range(gr.q, rd.n, rd.t) {
        return Err(Refusal::OutOfRange);
    }
    Ok(Setting {
        group: gr,
        number: rd.group,
        n: rd.n,
        t: rd.t,
        round: rd.round,
        whole_digest: takes_whole(rd.first_new_round, rd.round),
    })
}

// Judges the table and a round's figures, and answers the setting. Refused: 3, 4, 20 and 21 the table, as check_table; 1 no group of that
// number; 2 n or t outside its range.
pub fn setting_of(table: &[u8], rd: Round) -> Result<Setting, Refusal>
    ensures { result ≡ setting_outcome table.now rd }
{
    check_table(table)?;
    setting_in(table, rd)
}
