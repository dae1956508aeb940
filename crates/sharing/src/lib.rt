// One dealing's commitments: the degree check, the opening and recovery, each over a table and a round, and in their setting.
#![tactic(auto)]

ghost use Rattle.std.specs.Prelude.{◌≡◌, ◌&&◌, eqb, length};
ghost use Rattle.sharing.specs.Setting.{ProperSetting};
ghost use Rattle.sharing.specs.Answer.{degree_in, degree_outcome, opening_in, opening_outcome, recovery_in, recovery_outcome};

mod members;
mod settings;
mod shares;
mod weights;

use group::{Element, Exponent, Group, all_elements, all_exponents, is_exponent};
pub use members::is_member;
use members::is_quorum;
pub use settings::{setting_in, setting_of};
pub use shares::{opens, recovered_from};
pub use weights::degree_passes;
use words::{Refusal, passed_if};

// A round's figures as they are lent, unjudged: the group's number, the number of members, the threshold, the round's number and
// the first round whose exponents come from the whole digest, 0 for none.
#[repr(C)]
#[derive(Clone, Copy)]
pub struct Round {
    pub group: u32,
    pub n: u32,
    pub t: u32,
    pub round: u32,
    pub first_new_round: u32,
}

// What operations work on: the group, its number, the number of members, the threshold, the round's number and whether exponents
// come from the whole digest.
#[derive(Clone, Copy)]
pub struct Setting {
    pub group: Group,
    pub number: u32,
    pub n: u32,
    pub t: u32,
    pub round: u32,
    pub whole_digest: bool,
}

// Whether there are n commitments and m coefficients.
fn sizes_fit(n: u32, m: u32, vs: &[u32], ds: &[u32]) -> bool
    ensures { result ≡ eqb (length vs.now) n && eqb (length ds.now) m }
{
    vs.len() == n as usize && ds.len() == m as usize
}

// The degree check in a setting: 3, 6, 7 and 9. Internal: callers ensure that the setting is proper.
pub fn degree_check_in(s: Setting, vs: &[u32], ds: &[u32]) -> Result<(), Refusal>
    requires { ProperSetting s }
    ensures { result ≡ degree_in s vs.now ds.now }
{
    if !sizes_fit(s.n, s.n - s.t, vs, ds) {
        return Err(Refusal::BadLength);
    }
    if !all_elements(s.group, vs) {
        return Err(Refusal::NoElement);
    }
    if !all_exponents(s.group, ds) {
        return Err(Refusal::NoExponent);
    }
    passed_if(degree_passes(s, vs, ds), Refusal::DegreeFails)
}

// The degree check of the commitments vs by the check polynomial ds. Refused: as setting_of; 3 not n commitments or
// not n - t coefficients; 6 a commitment that is no element; 7 a coefficient not below q; 9 the product is not 1.
pub fn degree_check(table: &[u8], rd: Round, vs: &[u32], ds: &[u32]) -> Result<(), Refusal>
    ensures { result ≡ degree_outcome table.now rd vs.now ds.now }
{
    let s = setting_of(table, rd)?;
    degree_check_in(s, vs, ds)
}

// The opening in a setting: 3, 6, 7 and 11. Internal: callers ensure that the setting is proper.
pub fn opening_in(s: Setting, vs: &[u32], u: Exponent) -> Result<(), Refusal>
    requires { ProperSetting s }
    ensures { result ≡ opening_in s vs.now u.0 }
{
    if vs.len() != s.n as usize {
        return Err(Refusal::BadLength);
    }
    if !all_elements(s.group, vs) {
        return Err(Refusal::NoElement);
    }
    if !is_exponent(s.group, u) {
        return Err(Refusal::NoExponent);
    }
    passed_if(opens(s, vs, u), Refusal::WrongOpening)
}

// Whether u opens the commitments vs: g to the power u is what the first t of them give at 0. Refused: as
// setting_of; 3 not n commitments; 6 a commitment that is no element; 7 u is not below q; 11 u is not right.
pub fn opening(table: &[u8], rd: Round, vs: &[u32], u: Exponent) -> Result<(), Refusal>
    ensures { result ≡ opening_outcome table.now rd vs.now u.0 }
{
    let s = setting_of(table, rd)?;
    opening_in(s, vs, u)
}

// Recovery in a setting: 3, 8 and 6. Internal: callers ensure that the setting is proper.
pub fn recovery_in(s: Setting, ms: &[u32], ss: &[u32]) -> Result<Element, Refusal>
    requires { ProperSetting s }
    ensures { result ≡ recovery_in s ms.now ss.now }
{
    if ms.len() != ss.len() {
        return Err(Refusal::BadLength);
    }
    if !is_quorum(s, ms) {
        return Err(Refusal::NoMember);
    }
    if !all_elements(s.group, ss) {
        return Err(Refusal::NoElement);
    }
    Ok(recovered_from(s.group, ms, ss))
}

// The secret that the shares ss of the members ms give. Refused: as setting_of; 3 not one share to a member;
// 8 fewer than t members, one outside 1 to n, or one twice; 6 a share that is no element.
pub fn recovery(table: &[u8], rd: Round, ms: &[u32], ss: &[u32]) -> Result<Element, Refusal>
    ensures { result ≡ recovery_outcome table.now rd ms.now ss.now }
{
    let s = setting_of(table, rd)?;
    recovery_in(s, ms, ss)
}
