// Arithmetic on exponents, modulo q, and on elements, modulo p: no method takes one where the other is due.
ghost use Rattle.std.specs.Prelude.{◌≡◌, ◌<◌};
ghost use Rattle.field.specs.Residue.{sub, mul, inv};
ghost use Rattle.field.specs.Prime.{Prime};
ghost use Rattle.group.specs.Power.{pow};

use crate::{Element, Exponent, Group};

// b to the power e modulo p: 1 at exponent 0, and otherwise from the power at half the exponent. The power is handed back as a number,
// which the recursion keeps in a register; callers wrap it.
// Internal: callers ensure that p is above 1.
pub(crate) fn raise(p: u32, b: Element, e: Exponent) -> u32
    requires { 1 < p }
    ensures { result ≡ pow p b.0 e.0 }
{
    let n = e.0;
    if n == 0 {
        return 1;
    }
    let half = raise(p, b, Exponent(n / 2));
    let square = field::mul(p, half, half);
    if n % 2 == 0 {
        return square;
    }
    field::mul(p, square, b.0)
}

impl Element {
    // Internal: callers ensure that p is not 0.
    pub fn times(self, gr: Group, v: Element) -> Element
        requires { 0 < gr.p }
        ensures { result.0 ≡ mul gr.p self.0 v.0 }
    {
        Element(field::mul(gr.p, self.0, v.0))
    }

    // Internal: callers ensure that p is above 1.
    pub fn power(self, gr: Group, e: Exponent) -> Element
        requires { 1 < gr.p }
        ensures { result.0 ≡ pow gr.p self.0 e.0 }
    {
        Element(raise(gr.p, self, e))
    }
}

// Apart from those of `Element`, and not by one trait: the scope paper wants it so, and each has its own modulus.
impl Exponent {
    // Internal: callers ensure that both are below q.
    pub fn minus(self, gr: Group, e: Exponent) -> Exponent
        requires { (self.0 < gr.q) × (e.0 < gr.q) }
        ensures { result.0 ≡ sub gr.q self.0 e.0 }
    {
        Exponent(field::sub(gr.q, self.0, e.0))
    }

    // Internal: callers ensure that q is not 0.
    pub fn times(self, gr: Group, e: Exponent) -> Exponent
        requires { 0 < gr.q }
        ensures { result.0 ≡ mul gr.q self.0 e.0 }
    {
        Exponent(field::mul(gr.q, self.0, e.0))
    }

    // Internal: callers ensure that q is prime and the exponent in 1 to q - 1.
    pub fn inverse(self, gr: Group) -> Exponent
        requires { (Prime gr.q) × (0 < self.0) × (self.0 < gr.q) }
        ensures { result.0 ≡ inv gr.q self.0 }
    {
        Exponent(field::inverse(gr.q, self.0))
    }
}
