// The degree check, the opening and recovery.
ghost use Rattle.std.specs.Prelude.{◌≡◌};
ghost use Rattle.sharing.specs.Answer.{degree_outcome, opening_outcome, recovery_outcome};
ghost use Rattle.tadlovimpe.specs.Figures.{number_of, answer_of};

use crate::Answer;
use crate::answers::number_of;
use group::Exponent;
use sharing::Round;

// sharing::degree_check
#[unsafe(no_mangle)]
pub extern "C" fn tadlovimpe_degree_check(
    table: &[u8],
    round: Round,
    commitments: &[u32],
    coefficients: &[u32],
) -> u32
    ensures { result ≡ number_of (degree_outcome table.now round commitments.now coefficients.now) }
{
    number_of(sharing::degree_check(table, round, commitments, coefficients))
}

// sharing::opening
#[unsafe(no_mangle)]
pub extern "C" fn tadlovimpe_opening(table: &[u8], round: Round, commitments: &[u32], s: u32) -> u32
    ensures { result ≡ number_of (opening_outcome table.now round commitments.now s) }
{
    number_of(sharing::opening(table, round, commitments, Exponent(s)))
}

// sharing::recovery
#[unsafe(no_mangle)]
pub extern "C" fn tadlovimpe_recovery(
    table: &[u8],
    round: Round,
    members: &[u32],
    shares: &[u32],
) -> Answer
    ensures { result ≡ answer_of (recovery_outcome table.now round members.now shares.now) }
{
    Answer::from(sharing::recovery(table, round, members, shares))
}
