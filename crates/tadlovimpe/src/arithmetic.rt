// The digest, power, and one equality proof.
ghost use Rattle.std.specs.Prelude.{◌≡◌};
ghost use Rattle.words.specs.Checks.{if_met};
ghost use Rattle.words.specs.Bytes.{record_bytes};
ghost use Rattle.sha256.specs.Hash.{hash_value};
ghost use Rattle.sha256.specs.Answer.{digest_checks, digest_outcome};
ghost use Rattle.group.specs.Answer.{power_outcome};
ghost use Rattle.equality.specs.Equality.{equality_outcome};
ghost use Rattle.tadlovimpe.specs.Figures.{element_of, exponent_of, equality_of, number_of, answer_of};

use crate::answers::number_of;
use crate::{Answer, Proof};
use equality::Equality;
use group::{Element, Exponent};

impl From<Proof> for Equality {
    ghost from_gives = { λ proof e. e ≡ equality_of proof };

    fn from(proof: Proof) -> Equality {
        Equality {
            b1: Element(proof.b1),
            x1: Element(proof.x1),
            b2: Element(proof.b2),
            x2: Element(proof.x2),
            a1: Element(proof.a1),
            a2: Element(proof.a2),
            c: Exponent(proof.c),
            r: Exponent(proof.r),
        }
    }
}

// sha256::digest. `out` is kept where something is refused.
#[unsafe(no_mangle)]
pub extern "C" fn tadlovimpe_digest(message: &[u8], out: &mut [u8; 32]) -> u32
    ensures value { result ≡ number_of (digest_outcome message.now) }
    ensures out_after { out.new ≡ if_met (digest_checks message.now) (record_bytes (hash_value message.now)) out.old }
{
    match sha256::digest(message) {
        Ok(d) => {
            words::write_record(out, d);
            0
        }
        Err(refusal) => u32::from(refusal),
    }
}

// group::power
#[unsafe(no_mangle)]
pub extern "C" fn tadlovimpe_power(table: &[u8], group: u32, base: u32, exponent: u32) -> Answer
    ensures { result ≡ answer_of (power_outcome table.now group (element_of base) (exponent_of exponent)) }
{
    Answer::from(group::power(table, group, Element(base), Exponent(exponent)))
}

// equality::equality_check
#[unsafe(no_mangle)]
pub extern "C" fn tadlovimpe_equality_check(table: &[u8], group: u32, proof: Proof) -> u32
    ensures { result ≡ number_of (equality_outcome table.now group (equality_of proof)) }
{
    number_of(equality::equality_check(table, group, Equality::from(proof)))
}
