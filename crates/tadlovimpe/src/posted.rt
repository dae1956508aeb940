// Dealings, opened shares and added shares: the writers and the judges. A writer keeps `out` where something is refused.
ghost use Rattle.std.specs.Prelude.{◌≡◌, length};
ghost use Rattle.dealing.specs.Dealing.{judge_dealing_outcome, write_dealing_outcome, lent_dealing};
ghost use Rattle.share.specs.Share.{opened_form, added_form, judge_share_outcome, write_share_outcome, lent_after_share};
ghost use Rattle.tadlovimpe.specs.Figures.{number_of, answer_of};

use crate::Answer;
use crate::answers::number_of;
use group::{Element, Exponent};
use sharing::Round;

// dealing::write_dealing
#[unsafe(no_mangle)]
pub extern "C" fn tadlovimpe_write_dealing(
    table: &[u8],
    round: Round,
    dealer: u32,
    keys: &[u32],
    coefficients: &[u32],
    nonces: &[u32],
    out: &mut [u8],
) -> u32
    ensures value { result ≡ number_of (write_dealing_outcome table.now round dealer keys.now coefficients.now nonces.now
        (length out.old)) }
    ensures out_after { out.new ≡ lent_dealing table.now round dealer keys.now coefficients.now nonces.now
        out.old }
{
    number_of(dealing::write_dealing(table, round, dealer, keys, coefficients, nonces, out))
}

// dealing::judge_dealing
#[unsafe(no_mangle)]
pub extern "C" fn tadlovimpe_judge_dealing(
    table: &[u8],
    round: Round,
    dealer: u32,
    keys: &[u32],
    lines: &[u8],
) -> u32
    ensures { result ≡ number_of (judge_dealing_outcome table.now round dealer keys.now lines.now) }
{
    number_of(dealing::judge_dealing(table, round, dealer, keys, lines))
}

// share::write_share
#[unsafe(no_mangle)]
pub extern "C" fn tadlovimpe_write_share(
    table: &[u8],
    round: Round,
    dealer: u32,
    member: u32,
    encrypted: u32,
    secret_key: u32,
    nonce: u32,
    out: &mut [u8],
) -> u32
    ensures value { result ≡ number_of (write_share_outcome table.now round (opened_form dealer) member encrypted secret_key nonce
        (length out.old)) }
    ensures out_after { out.new ≡ lent_after_share table.now round (opened_form dealer) member encrypted secret_key nonce
        out.old }
{
    let e = Element(encrypted);
    let x = Exponent(secret_key);
    let w = Exponent(nonce);
    number_of(share::write_share(table, round, dealer, member, e, x, w, out))
}

// share::judge_share
#[unsafe(no_mangle)]
pub extern "C" fn tadlovimpe_judge_share(
    table: &[u8],
    round: Round,
    dealer: u32,
    member: u32,
    key: u32,
    encrypted: u32,
    share: &[u8],
) -> Answer
    ensures { result ≡ answer_of (judge_share_outcome table.now round (opened_form dealer) member key encrypted share.now) }
{
    let y = Element(key);
    let e = Element(encrypted);
    Answer::from(share::judge_share(table, round, dealer, member, y, e, share))
}

// share::write_added
#[unsafe(no_mangle)]
pub extern "C" fn tadlovimpe_write_added(
    table: &[u8],
    round: Round,
    member: u32,
    encrypted: u32,
    secret_key: u32,
    nonce: u32,
    out: &mut [u8],
) -> u32
    ensures value { result ≡ number_of (write_share_outcome table.now round added_form member encrypted secret_key nonce (length out.old)) }
    ensures out_after { out.new ≡ lent_after_share table.now round added_form member encrypted secret_key nonce out.old }
{
    let e = Element(encrypted);
    let x = Exponent(secret_key);
    let w = Exponent(nonce);
    number_of(share::write_added(table, round, member, e, x, w, out))
}

// share::judge_added
#[unsafe(no_mangle)]
pub extern "C" fn tadlovimpe_judge_added(
    table: &[u8],
    round: Round,
    member: u32,
    key: u32,
    encrypted: u32,
    share: &[u8],
) -> Answer
    ensures { result ≡ answer_of (judge_share_outcome table.now round added_form member key encrypted share.now) }
{
    let y = Element(key);
    let e = Element(encrypted);
    Answer::from(share::judge_added(table, round, member, y, e, share))
}
