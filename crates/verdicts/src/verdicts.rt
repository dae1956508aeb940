// How the secret of an accepted dealing came, and a dealer's verdict.
ghost use Rattle.std.specs.Prelude.{◌≡◌, ◌&&◌, ltb, is_ok};
ghost use Rattle.words.specs.Checks.{Met};
ghost use Rattle.words.specs.Bytes.{records_in, record_at};
ghost use Rattle.sharing.specs.Setting.{ProperSetting};
ghost use Rattle.sharing.specs.Answer.{opening_in};
ghost use Rattle.sharing.specs.Carried.{Commitments};
ghost use Rattle.records.specs.Layout.{u_of};
ghost use Rattle.lines.specs.Columns.{columns_of};
ghost use Rattle.board.specs.Board.{keys_in, board_checks, lines_of};
ghost use Rattle.verdicts.specs.Shares.{judges};
ghost use Rattle.verdicts.specs.Verdict.{encrypted_of, from_shares, secret_by, verdict_on};
ghost use Rattle.verdicts.specs.Posted.{LinesOn};

use crate::shares::from_lowest;
use crate::{Secret, Verdict};
use board::{find_opening, lines_of, record_count};
use dealing::judge_lines;
use group::{Exponent, is_exponent};
use lines::Columns;
use share::opened_form;
use sharing::{Setting, opens};
use words::{Refusal, record_at};

// The secret from the t lowest members with accepted shares, stuck where there are fewer.
// Internal: callers ensure that verdicts are reached, that the lines of d are accepted, and that these are the encrypted shares in them.
#[tactic(auto, unfolding(crate::specs::Verdict::from_shares))]
fn from_shares(s: Setting, b: &[u8], d: u32, encrypted: &[u32]) -> Secret
    requires { (LinesOn s b.now d) × (encrypted.now ≡ encrypted_of s b.now d) }
    ensures { result ≡ from_shares judges s b.now d }
{
    match from_lowest(s, opened_form(d), b, encrypted) {
        Err(_) => Secret::Stuck,
        Ok(v) => Secret::Recovered(v),
    }
}

// Whether the record at this place, where there is one, holds a right opening of the commitments vs: below q, and it opens them.
// Internal: callers ensure that the setting is proper and that vs are n elements.
#[tactic(auto, unfolding(sharing::specs::Answer::opening_in, sharing::specs::Answer::opening_figures, sharing::specs::Answer::opening_equation))]
fn opened_at(s: Setting, b: &[u8], at: usize, vs: &[u32]) -> bool
    requires { (ProperSetting s) × (Commitments s vs.now) }
    ensures { result ≡ ltb at (records_in b.now) && is_ok (opening_in s vs.now (u_of (record_at b.now at))) }
{
    if at >= record_count(b) {
        return false;
    }
    let u = Exponent(record_at(b, at).w3);
    is_exponent(s.group, u) && opens(s, vs, u)
}

// How the secret of an accepted dealing came: a right opening counts first.
// Internal: callers ensure that verdicts are reached, that the lines of d are accepted, and that these are their figures.
#[tactic(auto, using(crate::proofs::Secrets::lines_sorted, crate::proofs::Secrets::commitments_are, crate::proofs::Secrets::encrypted_are, crate::proofs::Secrets::lines_commitments), unfolding(crate::specs::Verdict::secret_by, crate::specs::Verdict::is_opened))]
fn secret(s: Setting, b: &[u8], d: u32, figures: Columns) -> Secret
    requires { (LinesOn s b.now d) × (figures ≡ columns_of s.n (lines_of b.now d)) }
    ensures { result ≡ secret_by judges s b.now d }
{
    let n = s.n as usize;
    let at = find_opening(b, d);
    if !opened_at(s, b, at, &figures.vs[..n]) {
        return from_shares(s, b, d, &figures.encrypted[..n]);
    }
    let u = Exponent(record_at(b, at).w3);
    Secret::Opened(s.group.h.power(s.group, u))
}

// The verdict on the dealer d: none without lines, 12 with some but not n, else what the judge of dealings answers; the board settles all but
// the figures of his lines.
// Internal: callers ensure that the setting is proper, that verdicts are reached, and that ys are the board's keys.
#[tactic(auto, using(crate::proofs::VerdictAnswers::no_lines, crate::proofs::VerdictAnswers::not_all_lines, crate::proofs::VerdictAnswers::all_lines, crate::proofs::VerdictAnswers::figures_are, crate::proofs::VerdictAnswers::dealing_accepted))]
pub(crate) fn verdict(s: Setting, ys: &[u32], b: &[u8], d: u32) -> Verdict
    requires { (ProperSetting s) × (Met (board_checks s b.now)) × (ys.now ≡ keys_in s.n b.now) }
    ensures { result ≡ verdict_on judges s b.now d }
{
    let lines = lines_of(b, d);
    let count = record_count(lines);
    if count == 0 {
        return Verdict::None;
    }
    if count != s.n as usize {
        return Verdict::Refused(Refusal::Incomplete);
    }
    let (figures, answer) = judge_lines(s, d, ys, lines);
    match answer {
        Err(refusal) => Verdict::Refused(refusal),
        Ok(()) => Verdict::Accepted(secret(s, b, d, figures)),
    }
}
