// Tests of posted figures: whether a number is an element, or an exponent, and whether each of a list is.
ghost use Rattle.std.specs.Prelude.{◌≡◌};
ghost use Rattle.words.specs.Lists.{all};
ghost use Rattle.group.specs.Element.{is_element, is_generator, is_exponent};

use crate::arithmetic::raise;
use crate::{Element, Exponent, Group};

// Whether v is in 1 to p - 1 and its power q is 1.
#[tactic(auto, unfolding(crate::specs::Element::is_element))]
pub fn is_element(gr: Group, v: Element) -> bool
    ensures { result ≡ is_element gr v.0 }
{
    1 <= v.0 && v.0 < gr.p && raise(gr.p, v, Exponent(gr.q)) == 1
}

// Whether b is an element other than 1.
#[tactic(auto, unfolding(crate::specs::Element::is_generator))]
pub fn is_generator(gr: Group, b: Element) -> bool
    ensures { result ≡ is_generator gr b.0 }
{
    is_element(gr, b) && b != Element(1)
}

// Whether e is below q.
#[tactic(auto, unfolding(crate::specs::Element::is_exponent))]
pub fn is_exponent(gr: Group, e: Exponent) -> bool
    ensures { result ≡ is_exponent gr e.0 }
{
    e.0 < gr.q
}

// Whether each number is an element.
pub fn all_elements(gr: Group, vs: &[u32]) -> bool
    ensures { result ≡ all (is_element gr) vs.now }
{
    vs.iter().all(|&v| is_element(gr, Element(v)))
}

// Whether each number is an exponent below q.
pub fn all_exponents(gr: Group, es: &[u32]) -> bool
    ensures { result ≡ all (is_exponent gr) es.now }
{
    es.iter().all(|&e| is_exponent(gr, Exponent(e)))
}
