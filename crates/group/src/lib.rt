// Groups of prime order inside the residues modulo a prime: tables of them, and the operation power.
#![tactic(auto)]

ghost use Rattle.std.specs.Prelude.{◌≡◌};
ghost use Rattle.group.specs.Answer.{power_in, power_outcome};

mod arithmetic;
mod groups;
mod membership;

pub use groups::{check_table, group_in, group_of};
pub use membership::{all_elements, all_exponents, is_element, is_exponent, is_generator};
use words::Refusal;

// A residue modulo q.
#[derive(Clone, Copy)]
pub struct Exponent(pub u32);

// A residue modulo p.
#[derive(Clone, Copy, PartialEq, Eq)]
pub struct Element(pub u32);

// The modulus p, the order q, and the two generators g and h.
#[derive(Clone, Copy)]
pub struct Group {
    pub p: u32,
    pub q: u32,
    pub g: Element,
    pub h: Element,
}

// An element to the power of an exponent in a group: 6 and 7.
pub fn power_in(gr: Group, base: Element, exponent: Exponent) -> Result<Element, Refusal>
    ensures { result ≡ power_in gr base exponent }
{
    if !is_element(gr, base) {
        return Err(Refusal::NoElement);
    }
    if !is_exponent(gr, exponent) {
        return Err(Refusal::NoExponent);
    }
    Ok(base.power(gr, exponent))
}

// An element to the power of an exponent. Refused: 3, 4, 20, 21 and 1 as group_of; 6 the base is no element; 7 the exponent is not below q.
pub fn power(
    table: &[u8],
    number: u32,
    base: Element,
    exponent: Exponent,
) -> Result<Element, Refusal>
    ensures { result ≡ power_outcome table.now number base exponent }
{
    let gr = group_of(table, number)?;
    power_in(gr, base, exponent)
}
