// The judging of a dealing: the form of its lines, their figures, and the equations between them.
ghost use Rattle.std.specs.Prelude.{◌≡◌, ◌&&◌, ◌*◌, ◌≤◌, eqb, length};
ghost use Rattle.words.specs.Lists.{map, all, entry};
ghost use Rattle.words.specs.Checks.{outcome};
ghost use Rattle.sharing.specs.Setting.{ProperSetting, members};
ghost use Rattle.sharing.specs.Answer.{degree_product};
ghost use Rattle.challenge.specs.Message.{check_polynomial};
ghost use Rattle.lines.specs.Columns.{columns_of};
ghost use Rattle.dealing.specs.Dealing.{dealing_form_checks, recomputed, range_checks, line_figure_checks};
ghost use Rattle.dealing.specs.Dealing.{judge_dealing_in, judge_dealing_outcome};
ghost use Rattle.dealing.specs.Columns.{column_checks};

use challenge::{check_polynomial, dealing_challenge};
use equality::announced;
use group::{Element, Exponent, all_elements, all_exponents};
use lines::{Columns, check_lines, read_lines};
use records::check_keys;
use sharing::{Round, Setting, degree_passes, is_member, setting_of};
use words::{Refusal, passed_if};

// Whether there are n keys and n lines.
fn sizes_fit(n: u32, ys: &[u32], lines: &[u8]) -> bool
    ensures { result ≡ eqb (length ys.now) n && eqb (length lines.now) (32 * n) }
{
    let k = n as usize;
    ys.len() == k && lines.len() == 32 * k
}

// What a dealing is refused by before its figures: 8, 3, 6 and 22 for keys, 4 and 17.
#[tactic(auto, unfolding(crate::specs::Dealing::dealing_form_checks, crate::specs::Dealing::judge_size_checks, lines::specs::Lines::address_checks, lines::specs::Lines::line_checks, records::specs::Keys::key_checks))]
fn check_form(s: Setting, d: u32, ys: &[u32], lines: &[u8]) -> Result<(), Refusal>
    ensures { result ≡ outcome (dealing_form_checks s d ys.now lines.now) tt }
{
    if !is_member(s.n, d) {
        return Err(Refusal::NoMember);
    }
    if !sizes_fit(s.n, ys, lines) {
        return Err(Refusal::BadLength);
    }
    check_keys(s.group, ys)?;
    check_lines(s, d, lines)
}

// Whether the judge's own check polynomial passes the commitments vs.
// Internal: callers ensure a proper setting and a dealer at most n.
fn own_check_passes(s: Setting, d: u32, vs: [u32; 31], encrypted: [u32; 31]) -> bool
    requires { (ProperSetting s) × (d ≤ s.n) }
    ensures { result ≡ eqb (degree_product s (map (entry vs) (members s.n)) (check_polynomial s d (entry vs) (entry encrypted))) 1 }
{
    let n = s.n as usize;
    let m = (s.n - s.t) as usize;
    let ds = check_polynomial(s, d, &vs, &encrypted);
    degree_passes(s, &vs[..n], &ds[..m])
}

// The challenge that the figures give. Internal: callers ensure a proper setting, a dealer at most n, and n keys.
fn recomputed(s: Setting, d: u32, ys: &[u32], figures: Columns) -> Exponent
    requires { (ProperSetting s) × (d ≤ s.n) × (length ys.now ≡ s.n) }
    ensures { result.0 ≡ recomputed s d ys.now (entry figures.vs) (entry figures.encrypted) (entry figures.rs) (entry figures.cs) }
{
    let mut a1s = [0u32; 31];
    let mut a2s = [0u32; 31];
    for i in 0..ys.len() {
        let r = Exponent(figures.rs[i]);
        let c = Exponent(figures.cs[i]);
        a1s[i] = announced(s.group, s.group.g, Element(figures.vs[i]), c, r).0;
        a2s[i] = announced(s.group, Element(ys[i]), Element(figures.encrypted[i]), c, r).0;
    }
    dealing_challenge(s, d, &figures.vs, &figures.encrypted, &a1s, &a2s)
}

// Whether c is the challenge of each of n members, in cs. Internal: callers ensure that n is at most 31.
fn all_equal(c: Exponent, cs: [u32; 31], n: usize) -> bool
    requires { n ≤ 31 }
    ensures { result ≡ all (λ i. eqb (entry cs i) c.0) (members n) }
{
    cs[..n].iter().all(|&x| x == c.0)
}

// What figures are refused by before the equations: 6 for a v or Y, and 7. Internal: callers ensure a proper setting.
#[tactic(auto, using(sharing::proofs::EachMember::entries_all), unfolding(crate::specs::Dealing::range_checks))]
fn check_ranges(
    s: Setting,
    vs: [u32; 31],
    encrypted: [u32; 31],
    rs: [u32; 31],
    cs: [u32; 31],
) -> Result<(), Refusal>
    requires { ProperSetting s }
    ensures { result ≡ outcome (range_checks s (entry vs) (entry encrypted) (entry rs) (entry cs)) tt }
{
    let n = s.n as usize;
    if !all_elements(s.group, &vs[..n]) || !all_elements(s.group, &encrypted[..n]) {
        return Err(Refusal::NoElement);
    }
    if !all_exponents(s.group, &rs[..n]) || !all_exponents(s.group, &cs[..n]) {
        return Err(Refusal::NoExponent);
    }
    Ok(())
}

// Judges figures: 6 for a v or Y, 7, 9 and 10. Internal: callers ensure a proper setting, a dealer at most n, and n keys.
#[tactic(auto, unfolding(crate::specs::Dealing::range_checks, crate::specs::Dealing::equation_checks))]
fn judge_figures(s: Setting, d: u32, ys: &[u32], figures: Columns) -> Result<(), Refusal>
    requires { (ProperSetting s) × (d ≤ s.n) × (length ys.now ≡ s.n) }
    ensures { result ≡ outcome (column_checks s d ys.now figures) tt }
{
    check_ranges(s, figures.vs, figures.encrypted, figures.rs, figures.cs)?;
    if !own_check_passes(s, d, figures.vs, figures.encrypted) {
        return Err(Refusal::DegreeFails);
    }
    let c = recomputed(s, d, ys, figures);
    passed_if(all_equal(c, figures.cs, s.n as usize), Refusal::ProofFails)
}

// Judges the lines of the dealer d by their figures, which are read once and handed back before the answer: 6 for a v or Y, 7, 9 and 10.
// Internal: callers ensure a proper setting, a dealer at most n, n keys and n lines.
pub fn judge_lines(s: Setting, d: u32, ys: &[u32], lines: &[u8]) -> (Columns, Result<(), Refusal>)
    requires { (ProperSetting s) × (d ≤ s.n) × (length ys.now ≡ s.n) × (length lines.now ≡ 32 * s.n) }
    ensures answer_value { result.1 ≡ outcome (line_figure_checks s d ys.now lines.now) tt }
    ensures figures_value { result.0 ≡ columns_of s.n lines.now }
{
    let figures = read_lines(lines, s.n as usize);
    let answer = judge_figures(s, d, ys, figures);
    (figures, answer)
}

// Judges a dealing in a setting: 8, 3, 6, 22, 4, 17, 6, 7, 9 and 10. Internal: callers ensure that the setting is proper.
pub fn judge_dealing_in(s: Setting, d: u32, ys: &[u32], lines: &[u8]) -> Result<(), Refusal>
    requires { ProperSetting s }
    ensures { result ≡ judge_dealing_in s d ys.now lines.now }
{
    check_form(s, d, ys, lines)?;
    judge_lines(s, d, ys, lines).1
}

// Judges the lines of the dealer d, with the keys ys. Refused: as setting_of; 8 d is no member; 3 not n keys or not 32n
// bytes; 6 a key that is no element or is 1; 22 two equal keys; 4 a record that is no line of d for the member of its place; 17 a line
// of another round; 6 a v or Y that is no element; 7 an r or c not below q; 9 the judge's own check polynomial does not pass; 10 a
// challenge is not the recomputed one.
pub fn judge_dealing(
    table: &[u8],
    rd: Round,
    d: u32,
    ys: &[u32],
    lines: &[u8],
) -> Result<(), Refusal>
    ensures { result ≡ judge_dealing_outcome table.now rd d ys.now lines.now }
{
    let s = setting_of(table, rd)?;
    judge_dealing_in(s, d, ys, lines)
}
