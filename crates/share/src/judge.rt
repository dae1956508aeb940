// The judging of a decrypted share, opened or added.
ghost use Rattle.std.specs.Prelude.{◌≡◌, ◌≤◌};
ghost use Rattle.words.specs.Checks.{outcome};
ghost use Rattle.sharing.specs.Setting.{ProperSetting};
ghost use Rattle.share.specs.Share.{opened_form, added_form, is_share_for, share_recomputed, share_admission_checks};
ghost use Rattle.share.specs.Share.{judge_share_figures_in, judge_share_in, judge_share_outcome};

use crate::form::{added_form, are_members, opened_form};
use crate::{EncryptedShare, ShareForm};
use challenge::{ShareFigures, share_challenge};
use equality::announced;
use group::{Element, Exponent, is_element, is_exponent};
use records::{is_key, is_of_round, is_share_record};
use sharing::{Round, Setting, setting_of};
use words::{Record, Refusal};

// Whether a record is a share of the member i in this form.
fn is_share_of(form: ShareForm, i: u32, share: Record) -> bool
    ensures { result ≡ is_share_for form i share }
{
    is_share_record(form.kind, share) && share.w1 == form.dealer && share.w2 == i
}

// What a share is refused by before its figures: 8, 3, 6 for y or the encrypted share, 4 and 17.
#[tactic(auto, unfolding(crate::specs::Share::share_admission_checks, crate::specs::Share::members_checks, crate::specs::Share::share_input_checks, crate::specs::Share::share_form_checks))]
fn check_admission(s: Setting, e: EncryptedShare, y: Element, b: &[u8]) -> Result<(), Refusal>
    ensures { result ≡ outcome (share_admission_checks s e.form e.member y.0 e.encrypted.0 b.now) tt }
{
    if !are_members(s.n, e.form, e.member) {
        return Err(Refusal::NoMember);
    }
    if b.len() != 32 {
        return Err(Refusal::BadLength);
    }
    if !is_key(s.group, y) || !is_element(s.group, e.encrypted) {
        return Err(Refusal::NoElement);
    }
    let share = words::read_record(b);
    if !is_share_of(e.form, e.member, share) {
        return Err(Refusal::BadForm);
    }
    if !is_of_round(s.round, share) {
        return Err(Refusal::OtherRound);
    }
    Ok(())
}

// The challenge that the figures of the record give, with the key y of the member.
// Internal: callers ensure that the setting is proper, and a dealer and a member at most n.
#[tactic(auto, unfolding(crate::specs::Share::share_recomputed))]
fn recomputed(s: Setting, e: EncryptedShare, y: Element, share: Record) -> Exponent
    requires { (ProperSetting s) × (e.form.dealer ≤ s.n) × (e.member ≤ s.n) }
    ensures { result.0 ≡ share_recomputed s e.form e.member y.0 e.encrypted.0 share }
{
    let encrypted = e.encrypted;
    let decrypted = Element(share.w3);
    let c = Exponent(share.w4);
    let r = Exponent(share.w5);
    let figures = ShareFigures {
        dealer: e.form.dealer,
        member: e.member,
        y,
        encrypted,
        decrypted,
        a1: announced(s.group, s.group.h, y, c, r),
        a2: announced(s.group, decrypted, encrypted, c, r),
    };
    share_challenge(s, e.form.tag, figures)
}

// Judges the figures of a share alone, for the encrypted share e and the key y of its member: an accepted one answers the decrypted
// share. Refused: 6 it is no element; 7 c or r is not below q; 10 c is not the recomputed one.
// Internal: callers ensure that the setting is proper, and a dealer and a member at most n; and where it is to be the whole
// judgement, all that check_admission tests.
#[tactic(auto, unfolding(crate::specs::Share::judge_share_figures_in, crate::specs::Share::share_figure_checks))]
pub fn judge_share_figures(
    s: Setting,
    e: EncryptedShare,
    y: Element,
    share: Record,
) -> Result<Element, Refusal>
    requires { (ProperSetting s) × (e.form.dealer ≤ s.n) × (e.member ≤ s.n) }
    ensures { result ≡ judge_share_figures_in s e.form e.member y.0 e.encrypted.0 share }
{
    if !is_element(s.group, Element(share.w3)) {
        return Err(Refusal::NoElement);
    }
    if !is_exponent(s.group, Exponent(share.w4)) || !is_exponent(s.group, Exponent(share.w5)) {
        return Err(Refusal::NoExponent);
    }
    if share.w4 != recomputed(s, e, y, share).0 {
        return Err(Refusal::ProofFails);
    }
    Ok(Element(share.w3))
}

// The judging in a setting: 8, 3, 6, 4, 17, 6, 7 and 10 as judge_share. Internal: callers ensure that the setting is proper.
fn judge_in(s: Setting, e: EncryptedShare, y: Element, b: &[u8]) -> Result<Element, Refusal>
    requires { ProperSetting s }
    ensures { result ≡ judge_share_in s e.form e.member y.0 e.encrypted.0 b.now }
{
    check_admission(s, e, y, b)?;
    judge_share_figures(s, e, y, words::read_record(b))
}

// The judging over a table and a round: as setting_of, and then as in their setting.
fn judge(
    table: &[u8],
    rd: Round,
    e: EncryptedShare,
    y: Element,
    b: &[u8],
) -> Result<Element, Refusal>
    ensures { result ≡ judge_share_outcome table.now rd e.form e.member y.0 e.encrypted.0 b.now }
{
    let s = setting_of(table, rd)?;
    judge_in(s, e, y, b)
}

// Judges the record b of an opened share of the member i for the dealer d, with the key y of the member and the encrypted share
// of his line: an accepted one answers the decrypted share. Refused: as setting_of; 8 d or i is no member; 3 not 32
// bytes; 6 y or the encrypted share is no element, or y is 1; 4 no record of an opened share of i for d; 17 one of another
// round; 6 the decrypted share is no element; 7 c or r is not below q; 10 c is not the recomputed one.
pub fn judge_share(
    table: &[u8],
    rd: Round,
    d: u32,
    i: u32,
    y: Element,
    encrypted: Element,
    b: &[u8],
) -> Result<Element, Refusal>
    ensures { result ≡ judge_share_outcome table.now rd (opened_form d) i y.0 encrypted.0 b.now }
{
    let opened = EncryptedShare {
        form: opened_form(d),
        member: i,
        encrypted,
    };
    judge(table, rd, opened, y, b)
}

// A name beside judge_share, as C has both.
// Judges the record b of an added share of the member i, with the key y of the member and the product of the encrypted shares of
// his lines over all accepted dealings: an accepted one answers the decrypted share. Refused: as setting_of; 8 i is no
// member; 3 not 32 bytes; 6 y or the product is no element, or y is 1; 4 no record of an added share of i; 17 one of another
// round; 6 the decrypted share is no element; 7 c or r is not below q; 10 c is not the recomputed one.
pub fn judge_added(
    table: &[u8],
    rd: Round,
    i: u32,
    y: Element,
    encrypted: Element,
    b: &[u8],
) -> Result<Element, Refusal>
    ensures { result ≡ judge_share_outcome table.now rd added_form i y.0 encrypted.0 b.now }
{
    let added = EncryptedShare {
        form: added_form(),
        member: i,
        encrypted,
    };
    judge(table, rd, added, y, b)
}
