// The padded message, FIPS 180-4, sections 5.1.1 and 5.2.1. Its words are worked out one by one, so it needs no buffer.
ghost use Rattle.std.specs.Prelude.{◌≡◌, ◌+◌, ◌*◌, ◌<◌, ◌≤◌, length, slice_index};
ghost use Rattle.words.specs.Bytes.{word_at};
ghost use Rattle.sha256.specs.Padding.{pad, blocks, block};

// The number of blocks of the padded message.
pub(crate) fn blocks(s: &[u8]) -> usize
    requires { length s.now ≤ 65536 }
    ensures { result ≡ blocks (pad s.now) }
{
    (s.len() + 72) / 64
}

// Byte i of the padded message, before the last word, which holds the length.
fn padded_byte(s: &[u8], i: usize) -> u8
    requires { (length s.now ≤ 65536) × (i + 4 < length (pad s.now)) }
    ensures { result ≡ slice_index (pad s.now) i }
{
    if i < s.len() {
        s[i]
    } else if i == s.len() {
        128
    } else {
        0
    }
}

// The word from byte k on, put together byte by byte: the one in which the message ends.
fn end_word(s: &[u8], k: usize) -> u32
    requires { (length s.now ≤ 65536) × (k + 8 ≤ length (pad s.now)) }
    ensures { result ≡ word_at (pad s.now) k }
{
    u32::from_be_bytes([
        padded_byte(s, k),
        padded_byte(s, k + 1),
        padded_byte(s, k + 2),
        padded_byte(s, k + 3),
    ])
}

// Word j of the padded message.
fn padded_word(s: &[u8], j: usize) -> u32
    requires { (length s.now ≤ 65536) × (j < 16 * blocks (pad s.now)) }
    ensures { result ≡ word_at (pad s.now) (4 * j) }
{
    let k = 4 * j;
    if k + 4 <= s.len() {
        words::word_at(s, k)
    } else if k <= s.len() {
        end_word(s, k)
    } else if j + 1 == 16 * blocks(s) {
        (8 * s.len()) as u32
    } else {
        0
    }
}

// The sixteen words of block i of the padded message.
pub(crate) fn block(s: &[u8], i: usize) -> [u32; 16]
    requires { (length s.now ≤ 65536) × (i < blocks (pad s.now)) }
    ensures { result ≡ block (pad s.now) i }
{
    let mut m = [0u32; 16];
    for j in 0..16 {
        m[j] = padded_word(s, 16 * i + j);
    }
    m
}
