// The writing of a decrypted share, opened or added.
ghost use Rattle.std.specs.Prelude.{◌≡◌, ◌<◌, ◌≤◌, length};
ghost use Rattle.words.specs.Checks.{outcome};
ghost use Rattle.sharing.specs.Setting.{ProperSetting};
ghost use Rattle.share.specs.Share.{opened_form, added_form, written_share, write_share_checks, write_share_in, write_share_outcome};
ghost use Rattle.share.specs.Share.{lent_after_share_in, lent_after_share};

use crate::EncryptedShare;
use crate::form::{added_form, are_members, opened_form};
use challenge::{ShareFigures, share_challenge};
use equality::response;
use group::{Element, Exponent, is_element, is_exponent};
use records::{is_secret_key, share_record};
use sharing::{Round, Setting, setting_of};
use words::Refusal;

// What the writing is refused by in a setting: 8, 3, 6 and 7 as write_share.
#[tactic(auto, unfolding(crate::specs::Share::write_share_checks, crate::specs::Share::members_checks))]
fn check_writing(
    s: Setting,
    e: EncryptedShare,
    x: Exponent,
    w: Exponent,
    room: usize,
) -> Result<(), Refusal>
    ensures { result ≡ outcome (write_share_checks s e.form e.member e.encrypted.0 x.0 w.0 room) tt }
{
    if !are_members(s.n, e.form, e.member) {
        return Err(Refusal::NoMember);
    }
    if room != 32 {
        return Err(Refusal::BadLength);
    }
    if !is_element(s.group, e.encrypted) {
        return Err(Refusal::NoElement);
    }
    if !is_secret_key(s.group, x) || !is_exponent(s.group, w) {
        return Err(Refusal::NoExponent);
    }
    Ok(())
}

// Writes the share that the secret key x gives of the encrypted share, with the nonce w.
// Internal: callers ensure that the setting is proper, a dealer and a member at most n, a secret key, a nonce below q, and 32 bytes.
#[tactic(auto, unfolding(crate::specs::Share::written_share, crate::specs::Share::written_share_record, crate::specs::Share::written_share_c, crate::specs::Share::share_of, crate::specs::Share::key_of))]
fn put_share(s: Setting, e: EncryptedShare, x: Exponent, w: Exponent, out: &mut [u8])
    requires { (ProperSetting s) × (e.form.dealer ≤ s.n) × (e.member ≤ s.n)
        × (0 < x.0) × (x.0 < s.group.q) × (w.0 < s.group.q) × (length out.old ≡ 32) }
    ensures { out.new ≡ written_share s e.form e.member e.encrypted.0 x.0 w.0 }
{
    let form = e.form;
    let encrypted = e.encrypted;
    let decrypted = encrypted.power(s.group, x.inverse(s.group));
    let figures = ShareFigures {
        dealer: form.dealer,
        member: e.member,
        y: s.group.h.power(s.group, x),
        encrypted,
        decrypted,
        a1: s.group.h.power(s.group, w),
        a2: decrypted.power(s.group, w),
    };
    let c = share_challenge(s, form.tag, figures);
    let r = response(s.group, w, c, x);
    let record = share_record(form.kind, form.dealer, e.member, decrypted, c, r, s.round);
    words::write_record(out, record);
}

// The writing in a setting: 8, 3, 6 and 7 as write_share. Internal: callers ensure that the setting is proper.
fn write_in(
    s: Setting,
    e: EncryptedShare,
    x: Exponent,
    w: Exponent,
    out: &mut [u8],
) -> Result<(), Refusal>
    requires { ProperSetting s }
    ensures result_value { result ≡ write_share_in s e.form e.member e.encrypted.0 x.0 w.0 (length out.old) }
    ensures out_after { out.new ≡ lent_after_share_in s e.form e.member e.encrypted.0 x.0 w.0 out.old }
{
    check_writing(s, e, x, w, out.len())?;
    put_share(s, e, x, w, out);
    Ok(())
}

// The writing over a table and a round: as setting_of, and then as in their setting.
fn write(
    table: &[u8],
    rd: Round,
    e: EncryptedShare,
    x: Exponent,
    w: Exponent,
    out: &mut [u8],
) -> Result<(), Refusal>
    ensures result_value { result ≡ write_share_outcome table.now rd e.form e.member e.encrypted.0 x.0 w.0 (length out.old) }
    ensures out_after { out.new ≡ lent_after_share table.now rd e.form e.member e.encrypted.0 x.0 w.0 out.old }
{
    let s = setting_of(table, rd)?;
    write_in(s, e, x, w, out)
}

// Writes the opened share of the member i for the dealer d, from the encrypted share, the secret key x and the nonce w.
// Refused, with no lent byte changed: as setting_of; 8 d or i is no member; 3 not 32 bytes; 6 the encrypted share is no
// element; 7 x is 0 or not below q, or w is not below q.
pub fn write_share(
    table: &[u8],
    rd: Round,
    d: u32,
    i: u32,
    encrypted: Element,
    x: Exponent,
    w: Exponent,
    out: &mut [u8],
) -> Result<(), Refusal>
    ensures result_value { result ≡ write_share_outcome table.now rd (opened_form d) i encrypted.0 x.0 w.0 (length out.old) }
    ensures out_after { out.new ≡ lent_after_share table.now rd (opened_form d) i encrypted.0 x.0 w.0 out.old }
{
    let opened = EncryptedShare {
        form: opened_form(d),
        member: i,
        encrypted,
    };
    write(table, rd, opened, x, w, out)
}

// A name beside write_share, as C has both.
// Writes the added share of the member i, from the product of the encrypted shares of his lines over all accepted dealings, the
// secret key x and the nonce w. Refused, with no lent byte changed: as setting_of; 8 i is no member; 3 not 32 bytes; 6 the
// product is no element; 7 x is 0 or not below q, or w is not below q.
pub fn write_added(
    table: &[u8],
    rd: Round,
    i: u32,
    encrypted: Element,
    x: Exponent,
    w: Exponent,
    out: &mut [u8],
) -> Result<(), Refusal>
    ensures result_value { result ≡ write_share_outcome table.now rd added_form i encrypted.0 x.0 w.0 (length out.old) }
    ensures out_after { out.new ≡ lent_after_share table.now rd added_form i encrypted.0 x.0 w.0 out.old }
{
    let added = EncryptedShare {
        form: added_form(),
        member: i,
        encrypted,
    };
    write(table, rd, added, x, w, out)
}
