// Keys and secret keys, and the stage of the members' keys.
ghost use Rattle.std.specs.Prelude.{◌≡◌, ◌+◌, ◌<◌};
ghost use Rattle.words.specs.Lists.{all};
ghost use Rattle.words.specs.Checks.{outcome};
ghost use Rattle.records.specs.Keys.{is_key, is_secret_key, key_checks};

use group::{Element, Exponent, Group, is_generator};
use words::{Refusal, none_twice};

// A key: an element that is not 1.
#[tactic(auto, unfolding(crate::specs::Keys::is_key))]
pub fn is_key(gr: Group, y: Element) -> bool
    ensures { result ≡ is_key gr y.0 }
{
    is_generator(gr, y)
}

pub fn all_keys(gr: Group, ys: &[u32]) -> bool
    ensures { result ≡ all (is_key gr) ys.now }
{
    ys.iter().all(|&y| is_key(gr, Element(y)))
}

// What the members' keys are refused by: 6 a number that is no key; 22 two equal keys.
pub fn check_keys(gr: Group, ys: &[u32]) -> Result<(), Refusal>
    ensures { result ≡ outcome (key_checks gr ys.now) tt }
{
    if !all_keys(gr, ys) {
        return Err(Refusal::NoElement);
    }
    if !none_twice(ys) {
        return Err(Refusal::SameKey);
    }
    Ok(())
}

// A secret key: 1 to q - 1.
#[tactic(auto, unfolding(crate::specs::Keys::is_secret_key))]
pub fn is_secret_key(gr: Group, x: Exponent) -> bool
    ensures { result ≡ is_secret_key gr x.0 }
{
    1 <= x.0 && x.0 < gr.q
}
