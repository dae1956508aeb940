// Proofs of equal logarithms.
#![tactic(auto)]

mod logarithms;

use group::{Element, Exponent};
pub use logarithms::{announced, equality_check, equality_in, response};

// A proof with lent figures that x1 is b1 and x2 is b2 to one exponent: the announcements a1 and a2, the challenge c, the response r.
#[derive(Clone, Copy)]
pub struct Equality {
    pub b1: Element,
    pub x1: Element,
    pub b2: Element,
    pub x2: Element,
    pub a1: Element,
    pub a2: Element,
    pub c: Exponent,
    pub r: Exponent,
}
