// The exponent that a digest gives, by the setting's rule. The remainder of the whole digest is worked out word by word.
ghost use Rattle.std.specs.Prelude.{◌≡◌, ◌%◌, ◌<◌};
ghost use Rattle.words.specs.Bytes.{word_bytes, big_endian, record_bytes};
ghost use Rattle.sharing.specs.Setting.{ProperSetting};
ghost use Rattle.challenge.specs.Exponent.{exponent_of, last_words, remainder_behind};

use group::Exponent;
use sharing::Setting;
use words::Record;

// The remainder modulo q of the number r with the bytes of the word w behind it. Internal: callers ensure that q is not 0.
fn remainder(q: u32, r: u32, w: u32) -> u32
    requires { 0 < q }
    ensures { result ≡ big_endian r (word_bytes w) % q }
{
    let number = r as u64 * 4294967296 + w as u64;
    (number % (q as u64)) as u32
}

// The same with the last six words of a digest behind it, one after the other.
fn with_rest(q: u32, r: u32, d: Record) -> u32
    requires { 0 < q }
    ensures { result ≡ remainder_behind q r (last_words d) }
{
    let words = [d.w2, d.w3, d.w4, d.w5, d.w6, d.w7];
    words.iter().fold(r, |r, &w| remainder(q, r, w))
}

// The exponent that the digest d gives. Internal: callers ensure a proper setting.
pub(crate) fn exponent_of(s: Setting, d: Record) -> Exponent
    requires { ProperSetting s }
    ensures { result.0 ≡ exponent_of s (record_bytes d) }
{
    let first = remainder(s.group.q, d.w0, d.w1);
    if s.whole_digest {
        Exponent(with_rest(s.group.q, first, d))
    } else {
        Exponent(first)
    }
}
