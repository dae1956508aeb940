// The hashed messages, and their challenges.
ghost use Rattle.std.specs.Prelude.{◌≡◌, [], ◌∷◌, ◌+◌, ◌≤◌, length, take};
ghost use Rattle.words.specs.Lists.{filled, entry};
ghost use Rattle.words.specs.Bytes.{words_bytes, put_at};
ghost use Rattle.sharing.specs.Setting.{ProperSetting};
ghost use Rattle.challenge.specs.Message.{coefficient_tag, round_bytes, head_bytes, challenge_of};
ghost use Rattle.challenge.specs.Message.{dealing_message, share_message, coefficient_message, check_polynomial};

use crate::ShareFigures;
use crate::exponent::exponent_of;
use group::Exponent;
use sharing::Setting;

// Bytes and no enum: the laws of shares hold of a form of any tag.
const DEALING_TAG: u8 = 0x44;

pub const SHARE_TAG: u8 = 0x53;

pub const ADDED_TAG: u8 = 0x41;

const COEFFICIENT_TAG: u8 = 0x50;

// The challenge of the first k bytes of m.
// Internal: callers ensure a proper setting, that the bytes are there and that a digest is not refused.
fn challenge(s: Setting, m: &[u8], k: usize) -> Exponent
    requires { (ProperSetting s) × (k ≤ length m.now) × (k ≤ 65536) }
    ensures { result.0 ≡ challenge_of s (take k m.now) }
{
    let Ok(d) = sha256::digest(&m[..k]) else {
        return Exponent(0);
    };
    exponent_of(s, d)
}

// Writes the round's number from `at` on, nothing in round 0, and answers where it ends. Internal: callers ensure room for it.
#[tactic(auto, using(crate::proofs::Buffers::no_round_length, crate::proofs::Buffers::no_round_put))]
fn put_round(m: &mut [u8], at: usize, round: u32) -> usize
    requires { at + 4 ≤ length m.old }
    ensures { (result ≡ at + length (round_bytes round)) × (m.new ≡ put_at at (round_bytes round) m.old) }
{
    if round == 0 {
        return at;
    }
    words::put_word(m, at, round);
    at + 4
}

// Writes the head of a message, a byte each for the tag, the group's number, n and t, then the round's number, and a byte for the
// dealer, and answers where it ends.
// Internal: callers ensure a proper setting, a dealer at most n and 16 bytes of room.
fn head(m: &mut [u8], tag: u8, s: Setting, d: u32) -> usize
    requires { (ProperSetting s) × (d ≤ s.n) × (16 ≤ length m.old) }
    ensures { (result ≤ 16) × (result ≡ length (head_bytes tag s d)) × (m.new ≡ put_at 0 (head_bytes tag s d) m.old) }
{
    m[..4].copy_from_slice(&[tag, s.number as u8, s.n as u8, s.t as u8]);
    let at = put_round(m, 4, s.round);
    m[at] = d as u8;
    at + 1
}

// Writes two words from `at` on. Internal: callers ensure room for them.
fn put_two(m: &mut [u8], at: usize, a: u32, b: u32)
    requires { at + 8 ≤ length m.old }
    ensures { m.new ≡ put_at at (words_bytes (a ∷ b ∷ [])) m.old }
{
    words::put_word(m, at, a);
    words::put_word(m, at + 4, b);
}

// Writes four words from `at` on. Internal: callers ensure room for them.
fn put_four(m: &mut [u8], at: usize, a: u32, b: u32, c: u32, d: u32)
    requires { at + 16 ≤ length m.old }
    ensures { m.new ≡ put_at at (words_bytes (a ∷ b ∷ c ∷ d ∷ [])) m.old }
{
    put_two(m, at, a, b);
    put_two(m, at + 8, c, d);
}

// The challenge of a dealing: over v, Y, a1 and a2 of every line.
// Internal: callers ensure a proper setting, and a dealer at most n.
pub fn dealing_challenge(
    s: Setting,
    d: u32,
    vs: &[u32; 31],
    encrypted: &[u32; 31],
    a1s: &[u32; 31],
    a2s: &[u32; 31],
) -> Exponent
    requires { (ProperSetting s) × (d ≤ s.n) }
    ensures { result.0 ≡ challenge_of s (dealing_message s d (entry vs.now) (entry encrypted.now) (entry a1s.now) (entry a2s.now)) }
{
    let mut m = [0u8; 512];
    let at = head(&mut m, DEALING_TAG, s, d);
    let n = s.n as usize;
    for i in 0..n {
        put_four(&mut m, at + 16 * i, vs[i], encrypted[i], a1s[i], a2s[i]);
    }
    challenge(s, &m, at + 16 * n)
}

// The challenge of a decrypted share of a member, opened or added by its tag: over y, Y, the decrypted share, a1 and a2.
// Internal: callers ensure a proper setting, and a dealer and a member at most n.
pub fn share_challenge(s: Setting, tag: u8, f: ShareFigures) -> Exponent
    requires { (ProperSetting s) × (f.dealer ≤ s.n) × (f.member ≤ s.n) }
    ensures { result.0 ≡ challenge_of s (share_message tag s f.dealer f.member f.y.0 f.encrypted.0 f.decrypted.0 f.a1.0 f.a2.0) }
{
    let mut m = [0u8; 37];
    let at = head(&mut m, tag, s, f.dealer);
    m[at] = f.member as u8;
    put_four(&mut m, at + 1, f.y.0, f.encrypted.0, f.decrypted.0, f.a1.0);
    words::put_word(&mut m, at + 17, f.a2.0);
    challenge(s, &m, at + 21)
}

// Writes the message of the coefficient 0 of the judge's own check polynomial, v and Y of every line, and answers where the byte 0
// stands: the other coefficients' messages differ in that byte alone.
// Internal: callers ensure a proper setting, a dealer at most n and 265 bytes of room.
fn coefficient_message(
    m: &mut [u8],
    s: Setting,
    d: u32,
    vs: &[u32; 31],
    encrypted: &[u32; 31],
) -> usize
    requires { (ProperSetting s) × (d ≤ s.n) × (265 ≤ length m.old) }
    ensures { (result ≤ 16) × (result ≡ length (head_bytes coefficient_tag s d))
        × (m.new ≡ put_at 0 (coefficient_message s d (entry vs.now) (entry encrypted.now) 0) m.old) }
{
    let at = head(m, COEFFICIENT_TAG, s, d);
    m[at] = 0;
    let from = at + 1;
    let n = s.n as usize;
    for i in 0..n {
        put_two(m, from + 8 * i, vs[i], encrypted[i]);
    }
    at
}

// The judge's own check polynomial, and 0 behind its n - t coefficients.
// Internal: callers ensure a proper setting, and a dealer at most n.
pub fn check_polynomial(s: Setting, d: u32, vs: &[u32; 31], encrypted: &[u32; 31]) -> [u32; 31]
    requires { (ProperSetting s) × (d ≤ s.n) }
    ensures { result ≡ filled 31 (check_polynomial s d (entry vs.now) (entry encrypted.now)) }
{
    let mut m = [0u8; 265];
    let at = coefficient_message(&mut m, s, d, vs, encrypted);
    let end = at + 1 + 8 * s.n as usize;
    let mut ds = [0u32; 31];
    let count = (s.n - s.t) as usize;
    for k in 0..count {
        m[at] = k as u8;
        ds[k] = challenge(s, &m, end).0;
    }
    ds
}
