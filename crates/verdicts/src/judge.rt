// Every dealer's verdict, the count of accepted dealings and the draw.
ghost use Rattle.std.specs.Prelude.{◌≡◌, true, ◌<◌, length, take};
ghost use Rattle.words.specs.Choice.{pick};
ghost use Rattle.words.specs.Checks.{Met, outcome};
ghost use Rattle.sharing.specs.Setting.{ProperSetting};
ghost use Rattle.board.specs.Board.{board_checks};
ghost use Rattle.verdicts.specs.Shares.{judges, recovered_from};
ghost use Rattle.verdicts.specs.Verdict.{is_stuck, verdict_on};
ghost use Rattle.verdicts.specs.Added.{added_by};
ghost use Rattle.verdicts.specs.Draw.{count_one, secret_value, times_secret, end_checks, verdict_places, JudgementIn};

use crate::added::added_draw;
use crate::verdicts::verdict;
use crate::{Judgement, Secret, Verdict};
use board::board_keys;
use group::{Element, Group};
use sharing::Setting;
use words::Refusal;

// 1 for an accepted dealing.
fn count_one(v: Verdict) -> u32
    ensures { result ≡ count_one v }
{
    match v {
        Verdict::None | Verdict::Refused(_) => 0,
        Verdict::Accepted(_) => 1,
    }
}

// Whether v is stuck, or a verdict before it.
fn any_stuck(v: Verdict, before: bool) -> bool
    ensures { result ≡ pick (is_stuck v) true before }
{
    before || matches!(v, Verdict::Accepted(Secret::Stuck))
}

// A secret's value, 1 for a stuck one.
fn secret_value(s: Secret) -> Element
    ensures { result.0 ≡ secret_value s }
{
    match s {
        Secret::Opened(v) | Secret::Recovered(v) => v,
        Secret::Stuck => Element(1),
    }
}

// x times the secret of an accepted dealing.
// Internal: callers ensure that p is not 0.
fn times_secret(gr: Group, v: Verdict, x: Element) -> Element
    requires { 0 < gr.p }
    ensures { result.0 ≡ times_secret gr.p v x.0 }
{
    match v {
        Verdict::None | Verdict::Refused(_) => x,
        Verdict::Accepted(s) => secret_value(s).times(gr, x),
    }
}

// The draw by the verdicts, the count of accepted dealings, whether one is stuck, and the product of the secrets: where one is
// stuck, the added shares decide.
// Internal: callers ensure that the setting is proper, that verdicts are reached, and that these are the dealers' verdicts.
#[tactic(auto, unfolding(crate::specs::Shares::from_lowest))]
fn draw_answer(
    s: Setting,
    b: &[u8],
    verdicts: [Verdict; 31],
    accepted: u32,
    stuck: bool,
    product: Element,
) -> Result<Element, Refusal>
    requires { (ProperSetting s) × (Met (board_checks s b.now)) × (verdicts ≡ verdict_places (verdict_on judges s b.now) s.n) }
    ensures { result ≡ outcome (end_checks s.t accepted stuck (length (added_by judges s b.now)))
        (pick stuck (record { 0 = recovered_from s.group b.now (take s.t (added_by judges s b.now)) }) product) }
{
    if accepted < s.t {
        return Err(Refusal::TooFew);
    }
    if !stuck {
        return Ok(product);
    }
    added_draw(s, b, verdicts)
}

// The verdicts of all dealers, from the last to the first, and how the board ends.
// Internal: callers ensure that the setting is proper and that verdicts are reached.
pub fn all_verdicts(s: Setting, b: &[u8]) -> Judgement
    requires { (ProperSetting s) × (Met (board_checks s b.now)) }
    ensures { JudgementIn judges s b.now result }
{
    let n = s.n as usize;
    let ys = board_keys(b, s.n);
    let mut verdicts = [Verdict::None; 31];
    let mut accepted: u32 = 0;
    let mut stuck = false;
    let mut product = Element(1);
    for d in (1..=s.n).rev() {
        let v = verdict(s, &ys[..n], b, d);
        accepted += count_one(v);
        stuck = any_stuck(v, stuck);
        product = times_secret(s.group, v, product);
        verdicts[d as usize - 1] = v;
    }
    Judgement {
        verdicts,
        accepted,
        draw: draw_answer(s, b, verdicts, accepted, stuck, product),
    }
}
