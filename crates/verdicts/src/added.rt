// The encrypted shares of all accepted dealings, multiplied member by member: what added shares are shares of. And the draw that
// these recover.
ghost use Rattle.std.specs.Prelude.{◌≡◌, ◌*◌, ◌<◌, ◌≤◌, length, take};
ghost use Rattle.words.specs.Lists.{map, filled, entry};
ghost use Rattle.words.specs.Checks.{Met};
ghost use Rattle.field.specs.Residue.{mul};
ghost use Rattle.sharing.specs.Setting.{ProperSetting, members};
ghost use Rattle.lines.specs.Lines.{Y_in};
ghost use Rattle.board.specs.Board.{board_checks};
ghost use Rattle.verdicts.specs.Shares.{judges, from_lowest};
ghost use Rattle.verdicts.specs.Verdict.{verdict_on};
ghost use Rattle.verdicts.specs.Gathered.{times_accepted};
ghost use Rattle.verdicts.specs.Added.{multiplied, added_by};
ghost use Rattle.verdicts.specs.Draw.{verdict_places};

use crate::Verdict;
use crate::shares::from_lowest;
use board::lines_of;
use group::{Element, Group};
use share::added_form;
use sharing::Setting;
use words::{Refusal, record_at};

// Multiplies the product of each member by the encrypted share in his line.
// Internal: callers ensure that p is not 0, and a line for each product.
fn times_lines(gr: Group, lines: &[u8], products: &mut [u32])
    requires { (0 < gr.p) × (length lines.now ≡ 32 * length products.old) }
    ensures { products.new ≡ map (λ i. mul gr.p (Y_in lines.now i) (entry products.old i)) (members (length products.old)) }
{
    for (i, product) in products.iter_mut().enumerate() {
        let encrypted = Element(record_at(lines, i).w4);
        *product = encrypted.times(gr, Element(*product)).0;
    }
}

// Multiplies the products of the members by the encrypted shares in the lines of the dealer d where his dealing is accepted.
// Internal: callers ensure that the setting is proper, that verdicts are reached, that v is his verdict, and a product for each member.
fn times_dealing(s: Setting, b: &[u8], d: u32, v: Verdict, products: &mut [u32])
    requires { (ProperSetting s) × (Met (board_checks s b.now)) × (v ≡ verdict_on judges s b.now d) × (length products.old ≡ s.n) }
    ensures { products.new ≡ map (times_accepted judges s b.now d (entry products.old)) (members s.n) }
{
    if let Verdict::Accepted(_) = v {
        times_lines(s.group, lines_of(b, d), products);
    }
}

// The encrypted shares of all accepted dealings, multiplied member by member, from the last dealer to the first, and 0 behind them.
// Internal: callers ensure that the setting is proper, that verdicts are reached, and that these are the dealers' verdicts.
fn multiplied_shares(s: Setting, b: &[u8], verdicts: [Verdict; 31]) -> [u32; 31]
    requires { (ProperSetting s) × (Met (board_checks s b.now)) × (verdicts ≡ verdict_places (verdict_on judges s b.now) s.n) }
    ensures { result ≡ filled 31 (multiplied judges s b.now Y_in) }
{
    let n = s.n as usize;
    let mut products = [0; 31];
    products[..n].fill(1);
    for d in (1..=s.n).rev() {
        times_dealing(s, b, d, verdicts[d as usize - 1], &mut products[..n]);
    }
    products
}

// The draw from the t lowest members with accepted added shares, refused by 13 where there are fewer.
// Internal: callers ensure that the setting is proper, that verdicts are reached, and that these are the dealers' verdicts.
pub(crate) fn added_draw(s: Setting, b: &[u8], verdicts: [Verdict; 31]) -> Result<Element, Refusal>
    requires { (ProperSetting s) × (Met (board_checks s b.now)) × (verdicts ≡ verdict_places (verdict_on judges s b.now) s.n) }
    ensures { result ≡ from_lowest s b.now (added_by judges s b.now) }
{
    let products = multiplied_shares(s, b, verdicts);
    from_lowest(s, added_form(), b, &products[..s.n as usize])
}
