// Proofs that two elements are two bases to one exponent: their announcements and responses, and the operation that judges one.
ghost use Rattle.std.specs.Prelude.{◌≡◌, ◌<◌};
ghost use Rattle.equality.specs.Equality.{announced, response, equations_hold, equality_in, equality_outcome};

use crate::Equality;
use group::{Element, Exponent, Group, all_elements, all_exponents, group_of};
use words::{Refusal, passed_if};

// The announcement that the challenge c and the response r give for the element x to the base b.
// Internal: callers ensure that p is above 1.
pub fn announced(gr: Group, b: Element, x: Element, c: Exponent, r: Exponent) -> Element
    requires { 1 < gr.p }
    ensures { result.0 ≡ announced gr b.0 x.0 c.0 r.0 }
{
    b.power(gr, r).times(gr, x.power(gr, c))
}

// The response of the nonce w to the challenge c for the exponent e.
// Internal: callers ensure that w is below q.
pub fn response(gr: Group, w: Exponent, c: Exponent, e: Exponent) -> Exponent
    requires { w.0 < gr.q }
    ensures { result.0 ≡ response gr w.0 c.0 e.0 }
{
    w.minus(gr, c.times(gr, e))
}

// Whether both announcements are what the challenge and the response give.
// Internal: callers ensure that p is above 1.
#[tactic(auto, unfolding(crate::specs::Equality::equations_hold))]
fn equations_hold(gr: Group, e: Equality) -> bool
    requires { 1 < gr.p }
    ensures { result ≡ equations_hold gr e }
{
    e.a1 == announced(gr, e.b1, e.x1, e.c, e.r) && e.a2 == announced(gr, e.b2, e.x2, e.c, e.r)
}

// One proof with lent figures in a group: 6, 7 and 10. Internal: callers ensure that p is above 1.
pub fn equality_in(gr: Group, e: Equality) -> Result<(), Refusal>
    requires { 1 < gr.p }
    ensures { result ≡ equality_in gr e }
{
    if !all_elements(gr, &[e.b1.0, e.x1.0, e.b2.0, e.x2.0, e.a1.0, e.a2.0]) {
        return Err(Refusal::NoElement);
    }
    if !all_exponents(gr, &[e.c.0, e.r.0]) {
        return Err(Refusal::NoExponent);
    }
    passed_if(equations_hold(gr, e), Refusal::ProofFails)
}

// One proof with lent figures. Refused: 3, 4, 20, 21 and 1 as group_of; 6 a figure that is no element; 7 c or r not below q; 10 an equation
// for a1 or a2 fails.
pub fn equality_check(table: &[u8], number: u32, e: Equality) -> Result<(), Refusal>
    ensures { result ≡ equality_outcome table.now number e }
{
    let gr = group_of(table, number)?;
    equality_in(gr, e)
}
