// The weights of the degree check, and its equation: the product of the commitments to their weights is 1.
ghost use Rattle.std.specs.Prelude.{◌≡◌, ◌<◌, length, eqb};
ghost use Rattle.sharing.specs.Setting.{ProperSetting};
ghost use Rattle.sharing.specs.Weights.{gaps_at, weight_at};
ghost use Rattle.sharing.specs.Answer.{degree_product};

use crate::Setting;
use group::{Element, Exponent};

// The product of i - j over the other members j of 1 to n.
// Internal: callers ensure that the setting is proper and that i is below q.
#[tactic(auto, using(crate::proofs::Loops::members_end, crate::proofs::Loops::members_back), unfolding(crate::specs::Weights::gaps_at))]
fn gaps(s: Setting, i: u32) -> Exponent
    requires { (ProperSetting s) × (i < s.group.q) }
    ensures { result.0 ≡ gaps_at s i }
{
    let mut product = Exponent(1);
    for j in (1..=s.n).rev() {
        if i != j {
            product = Exponent(i)
                .minus(s.group, Exponent(j))
                .times(s.group, product);
        }
    }
    product
}

// The weight of member i for the check polynomial ds.
// Internal: callers ensure that the setting is proper and that i is below q.
fn weight(s: Setting, ds: &[u32], i: u32) -> Exponent
    requires { (ProperSetting s) × (i < s.group.q) }
    ensures { result.0 ≡ weight_at s ds.now i }
{
    let value = Exponent(field::value_at(s.group.q, ds, i));
    gaps(s, i).inverse(s.group).times(s.group, value)
}

// The product of the commitments to their weights.
// Internal: callers ensure that the setting is proper and that there are n commitments.
#[tactic(auto, using(crate::proofs::Loops::powers_end, crate::proofs::Loops::weights_back), unfolding(crate::specs::Answer::degree_product))]
fn degree_product(s: Setting, vs: &[u32], ds: &[u32]) -> Element
    requires { (ProperSetting s) × (length vs.now ≡ s.n) }
    ensures { result.0 ≡ degree_product s vs.now ds.now }
{
    let mut product = Element(1);
    for i in (1..=s.n).rev() {
        let v = Element(vs[i as usize - 1]);
        let exponent = weight(s, ds, i);
        product = v.power(s.group, exponent).times(s.group, product);
    }
    product
}

// Whether the check polynomial ds passes: the equation of the degree check, without its other checks.
// Internal: callers ensure that the setting is proper and that there are n commitments.
pub fn degree_passes(s: Setting, vs: &[u32], ds: &[u32]) -> bool
    requires { (ProperSetting s) × (length vs.now ≡ s.n) }
    ensures { result ≡ eqb (degree_product s vs.now ds.now) 1 }
{
    degree_product(s, vs, ds) == Element(1)
}
