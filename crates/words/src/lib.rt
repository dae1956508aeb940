// Words and records of bytes, as every figure of a board is posted, lists of words, and why operations refuse.
#![tactic(auto)]

ghost use Rattle.std.specs.Prelude.{◌≡◌, ◌+◌, ◌*◌, ◌≤◌, length, Ok, Err};
ghost use Rattle.words.specs.Choice.{pick};
ghost use Rattle.words.specs.Bytes.{word_at, word_bytes, put_at, record_in, record_at, record_bytes, agrees};

mod distinct;
mod refusal;

pub use distinct::none_twice;
pub use refusal::Refusal;

// Eight words: a record of a board, or a digest.
#[derive(Clone, Copy, PartialEq, Eq)]
pub struct Record {
    pub w0: u32,
    pub w1: u32,
    pub w2: u32,
    pub w3: u32,
    pub w4: u32,
    pub w5: u32,
    pub w6: u32,
    pub w7: u32,
}

impl Record {
    // Eight zeros: what stands before a first record, or link.
    pub const ZERO: Record = Record {
        w0: 0,
        w1: 0,
        w2: 0,
        w3: 0,
        w4: 0,
        w5: 0,
        w6: 0,
        w7: 0,
    };
}

// Refused by `refusal`, of whatever type, unless the test holds.
pub fn passed_if<E: Drop>(test: bool, refusal: E) -> Result<(), E>
    ensures { result ≡ pick test (Ok tt) (Err refusal) }
{
    if test { Ok(()) } else { Err(refusal) }
}

// The word whose first byte stands at `k`. Internal: the caller ensures that its four bytes are there.
pub fn word_at(b: &[u8], k: usize) -> u32
    requires { k + 4 ≤ length b.now }
    ensures { result ≡ word_at b.now k }
{
    u32::from_be_bytes([b[k], b[k + 1], b[k + 2], b[k + 3]])
}

// Writes a word from `k` on. Internal: the caller ensures room for its four bytes.
pub fn put_word(b: &mut [u8], k: usize, w: u32)
    requires { k + 4 ≤ length b.old }
    ensures { b.new ≡ put_at k (word_bytes w) b.old }
{
    b[k..k + 4].copy_from_slice(&w.to_be_bytes());
}

// The record that 32 bytes hold. Internal: the caller hands over just these bytes.
pub fn read_record(b: &[u8]) -> Record
    requires { length b.now ≡ 32 }
    ensures { result ≡ record_in b.now }
{
    Record {
        w0: word_at(b, 0),
        w1: word_at(b, 4),
        w2: word_at(b, 8),
        w3: word_at(b, 12),
        w4: word_at(b, 16),
        w5: word_at(b, 20),
        w6: word_at(b, 24),
        w7: word_at(b, 28),
    }
}

// The record number k, from 0, of bytes that hold records.
// Internal: callers ensure that its bytes are there.
pub fn record_at(b: &[u8], k: usize) -> Record
    requires { 32 * k + 32 ≤ length b.now }
    ensures { result ≡ record_at b.now k }
{
    read_record(&b[32 * k..32 * k + 32])
}

// Writes a record over 32 bytes. Internal: the caller hands over just these bytes.
pub fn write_record(b: &mut [u8], r: Record)
    requires { length b.old ≡ 32 }
    ensures { b.new ≡ record_bytes r }
{
    put_word(b, 0, r.w0);
    put_word(b, 4, r.w1);
    put_word(b, 8, r.w2);
    put_word(b, 12, r.w3);
    put_word(b, 16, r.w4);
    put_word(b, 20, r.w5);
    put_word(b, 24, r.w6);
    put_word(b, 28, r.w7);
}

// Whether all words are the same: `==`, under the name that definitions have for it.
pub fn agrees(r: Record, s: Record) -> bool
    ensures { result ≡ agrees r s }
{
    r == s
}
