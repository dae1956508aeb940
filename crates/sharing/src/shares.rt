// Lagrange's coefficients at 0, the product of shares to them, and the equation of an opening.
ghost use Rattle.std.specs.Prelude.{◌≡◌, ◌<◌, length, take};
ghost use Rattle.words.specs.Lists.{Below};
ghost use Rattle.group.specs.Element.{Proper};
ghost use Rattle.sharing.specs.Setting.{ProperSetting, members};
ghost use Rattle.sharing.specs.Weights.{lagrange_at};
ghost use Rattle.sharing.specs.Answer.{recovered, is_opening};

use crate::Setting;
use group::{Element, Exponent, Group};

// The members of the largest round, written out: without heap no range can be collected into a list that is lent.
const MEMBERS: [u32; 31] = [
    1, 2, 3, 4, 5, 6, 7, 8, 9, 10, 11, 12, 13, 14, 15, 16, 17, 18, 19, 20, 21, 22, 23, 24, 25, 26,
    27, 28, 29, 30, 31,
];

// Lagrange's coefficient at 0 of member i among the members ms: over the other members j, the product of the j divided by
// the product of the j - i.
// Internal: callers ensure that the group is proper and that i and the members are below q.
fn lagrange(gr: Group, ms: &[u32], i: u32) -> Exponent
    requires { (Proper gr) × (i < gr.q) × (Below gr.q ms.now) }
    ensures { result.0 ≡ lagrange_at gr ms.now i }
{
    let mut numbers = Exponent(1);
    let mut gaps = Exponent(1);
    for &j in ms.iter().rev() {
        if i != j {
            numbers = Exponent(j).times(gr, numbers);
            gaps = Exponent(j).minus(gr, Exponent(i)).times(gr, gaps);
        }
    }
    numbers.times(gr, gaps.inverse(gr))
}

// The product of the shares ss to Lagrange's coefficients of their members ms.
// Internal: callers ensure that the group is proper, that the members are below q and that there are as many shares as members.
#[tactic(auto, using(crate::proofs::Loops::powers_end, crate::proofs::Loops::powers_back), unfolding(crate::specs::Answer::recovered))]
pub fn recovered_from(gr: Group, ms: &[u32], ss: &[u32]) -> Element
    requires { (Proper gr) × (Below gr.q ms.now) × (length ms.now ≡ length ss.now) }
    ensures { result.0 ≡ recovered gr ms.now ss.now }
{
    let mut product = Element(1);
    for (&m, &s) in ms.iter().rev().zip(ss.iter().rev()) {
        let exponent = lagrange(gr, ms, m);
        product = Element(s).power(gr, exponent).times(gr, product);
    }
    product
}

// The same product of the first t commitments, those of the members 1 to t.
// Internal: callers ensure that the setting is proper and that there are n commitments.
#[tactic(auto, using(crate::proofs::Rounds::first_members))]
fn recovered_from_first(s: Setting, vs: &[u32]) -> Element
    requires { (ProperSetting s) × (length vs.now ≡ s.n) }
    ensures { result.0 ≡ recovered s.group (members s.t) (take s.t vs.now) }
{
    let t = s.t as usize;
    recovered_from(s.group, &MEMBERS[..t], &vs[..t])
}

// Whether u opens the commitments vs: the equation of the opening, without its other checks.
// Internal: callers ensure that the setting is proper and that there are n commitments.
#[tactic(auto, unfolding(crate::specs::Answer::is_opening))]
pub fn opens(s: Setting, vs: &[u32], u: Exponent) -> bool
    requires { (ProperSetting s) × (length vs.now ≡ s.n) }
    ensures { result ≡ is_opening s vs.now u.0 }
{
    s.group.g.power(s.group, u) == recovered_from_first(s, vs)
}
