// The writing of a dealing: the checks of its figures, the powers, the challenge, and a line for each member.
ghost use Rattle.std.specs.Prelude.{◌≡◌, ◌&&◌, ◌*◌, ◌<◌, ◌≤◌, eqb, length};
ghost use Rattle.words.specs.Lists.{Below, map, filled, entry};
ghost use Rattle.words.specs.Checks.{outcome};
ghost use Rattle.field.specs.Polynomial.{value_at};
ghost use Rattle.group.specs.Power.{pow};
ghost use Rattle.sharing.specs.Setting.{ProperSetting, members};
ghost use Rattle.equality.specs.Equality.{response};
ghost use Rattle.dealing.specs.Dealing.{written_dealing, write_dealing_checks, write_dealing_in, write_dealing_outcome, lent_dealing_in, lent_dealing};

use crate::filling::for_members;
use challenge::dealing_challenge;
use equality::response;
use group::{Element, Exponent, Group, all_exponents};
use lines::put_lines;
use records::check_keys;
use sharing::{Round, Setting, is_member, setting_of};
use words::Refusal;

// `values`, `raised` and `responses` are not inlined: built into put_dealing, their arrays are kept more than once, in 560 bytes of stack.

// The value of the polynomial f at each member, and 0 behind them.
// Internal: callers ensure that q is not 0 and that n is at most 31.
#[inline(never)]
fn values(gr: Group, f: &[u32], n: usize) -> [u32; 31]
    requires { (0 < gr.q) × (n ≤ 31) }
    ensures { result ≡ filled 31 (map (value_at gr.q f.now) (members n)) }
{
    for_members(n, |i| field::value_at(gr.q, f, i as u32 + 1))
}

// Each member's base to his exponent, and 0 behind these powers.
// Internal: callers ensure that p is above 1, n bases and n exponents, and that n is at most 31.
#[inline(never)]
#[tactic(auto, using(words::proofs::Lists::entry_at))]
fn raised(gr: Group, bases: &[u32], xs: &[u32], n: usize) -> [u32; 31]
    requires { (1 < gr.p) × (n ≤ 31) × (n ≤ length bases.now) × (n ≤ length xs.now) }
    ensures { result ≡ filled 31 (map (λ i. pow gr.p (entry bases.now i) (entry xs.now i)) (members n)) }
{
    for_members(n, |i| Element(bases[i]).power(gr, Exponent(xs[i])).0)
}

// The response of each member to the challenge c, from the polynomial's value x and the nonce w of each, and 0 behind them.
// Internal: callers ensure nonces below q, at most 31.
#[inline(never)]
#[tactic(auto, using(words::proofs::Lists::entry_at))]
fn responses(gr: Group, xs: &[u32; 31], ws: &[u32], c: Exponent) -> [u32; 31]
    requires { (length ws.now ≤ 31) × (Below gr.q ws.now) }
    ensures { result ≡ filled 31 (map (λ i. response gr (entry ws.now i) c.0 (entry xs.now i)) (members (length ws.now))) }
{
    let n = ws.len();
    for_members(n, |i| response(gr, Exponent(ws[i]), c, Exponent(xs[i])).0)
}

// Writes the lines of a dealing: commitments and encrypted shares, and the announcements of the nonces for the challenge.
// Internal: callers ensure a proper setting, a dealer at most n, n keys, n nonces below q and just the room for n lines.
fn put_dealing(s: Setting, d: u32, ys: &[u32], f: &[u32], ws: &[u32], out: &mut [u8])
    requires { (ProperSetting s) × (d ≤ s.n) × (length ys.now ≡ s.n) × (length ws.now ≡ s.n)
        × (Below s.group.q ws.now) × (length out.old ≡ 32 * s.n) }
    ensures { out.new ≡ written_dealing s d ys.now f.now ws.now }
{
    let n = s.n as usize;
    let gs = [s.group.g.0; 31];
    let xs = values(s.group, f, n);
    let vs = raised(s.group, &gs, &xs, n);
    let encrypted = raised(s.group, ys, &xs, n);
    let a1s = raised(s.group, &gs, ws, n);
    let a2s = raised(s.group, ys, ws, n);
    let c = dealing_challenge(s, d, &vs, &encrypted, &a1s, &a2s);
    let rs = responses(s.group, &xs, ws, c);
    put_lines(s.round, d, n, &vs, &encrypted, &rs, c, out);
}

// Whether there are n keys, t coefficients, n nonces and room for n lines.
fn sizes_fit(n: u32, t: u32, ys: &[u32], f: &[u32], ws: &[u32], room: usize) -> bool
    ensures { result ≡ eqb (length ys.now) n && (eqb (length f.now) t && (eqb (length ws.now) n && eqb room (32 * n))) }
{
    let k = n as usize;
    ys.len() == k && f.len() == t as usize && ws.len() == k && room == 32 * k
}

// What the writing is refused by: 8, 3, 6, 22 and 7 as write_dealing.
#[tactic(auto, unfolding(crate::specs::Dealing::write_size_checks, crate::specs::Dealing::secret_checks, lines::specs::Lines::address_checks, records::specs::Keys::key_checks))]
fn check_writing(
    s: Setting,
    d: u32,
    ys: &[u32],
    f: &[u32],
    ws: &[u32],
    room: usize,
) -> Result<(), Refusal>
    ensures { result ≡ outcome (write_dealing_checks s d ys.now f.now ws.now room) tt }
{
    if !is_member(s.n, d) {
        return Err(Refusal::NoMember);
    }
    if !sizes_fit(s.n, s.t, ys, f, ws, room) {
        return Err(Refusal::BadLength);
    }
    check_keys(s.group, ys)?;
    if !all_exponents(s.group, f) || !all_exponents(s.group, ws) {
        return Err(Refusal::NoExponent);
    }
    Ok(())
}

// Writes a dealing in a setting: 8, 3, 6, 22 and 7. Internal: callers ensure that the setting is proper.
pub fn write_dealing_in(
    s: Setting,
    d: u32,
    ys: &[u32],
    f: &[u32],
    ws: &[u32],
    out: &mut [u8],
) -> Result<(), Refusal>
    requires { ProperSetting s }
    ensures result_value { result ≡ write_dealing_in s d ys.now f.now ws.now (length out.old) }
    ensures out_after { out.new ≡ lent_dealing_in s d ys.now f.now ws.now out.old }
{
    check_writing(s, d, ys, f, ws, out.len())?;
    put_dealing(s, d, ys, f, ws, out);
    Ok(())
}

// Writes a dealing of the dealer d into the lent bytes, from the keys ys, the polynomial f and the nonces ws. Refused, with no byte
// changed: as setting_of; 8 d is no member; 3 not n keys, t coefficients, n nonces or 32n bytes; 6 a key that is no element
// or is 1; 22 two equal keys; 7 a coefficient or a nonce not below q.
pub fn write_dealing(
    table: &[u8],
    rd: Round,
    d: u32,
    ys: &[u32],
    f: &[u32],
    ws: &[u32],
    out: &mut [u8],
) -> Result<(), Refusal>
    ensures result_value { result ≡ write_dealing_outcome table.now rd d ys.now f.now ws.now (length out.old) }
    ensures out_after { out.new ≡ lent_dealing table.now rd d ys.now f.now ws.now out.old }
{
    let s = setting_of(table, rd)?;
    write_dealing_in(s, d, ys, f, ws, out)
}
