// One layout for each kind of record, and the tests of their form.
#![tactic(auto, unfolding(words::specs::Bytes::agrees))]

ghost use Rattle.std.specs.Prelude.{◌≡◌};
ghost use Rattle.records.specs.Layout.{key_layout, line_layout, opening_layout, share_layout, set_layout};
ghost use Rattle.records.specs.Layout.{is_key_record, is_line_record, is_opening_record, is_share_record, is_set_record, is_of_round};

use group::{Element, Exponent};
use words::Record;

// Kinds are numbers and no enum: a board holds any word, and the laws of shares hold of a form of any kind.
pub const KEY: u32 = 1;

pub const LINE: u32 = 2;

pub const OPENING: u32 = 3;

pub const SHARE: u32 = 4;

pub const ADDED: u32 = 5;

pub const SET: u32 = 9;

// The key y of member i.
pub fn key_record(i: u32, y: Element, round: u32) -> Record
    ensures { result ≡ key_layout i y.0 round }
{
    Record {
        w0: KEY,
        w2: i,
        w3: y.0,
        w7: round,
        ..Record::ZERO
    }
}

// The line of dealer d for member i: a commitment, an encrypted share, and its proof's response and challenge.
pub fn line_record(
    d: u32,
    i: u32,
    v: Element,
    encrypted: Element,
    r: Exponent,
    c: Exponent,
    round: u32,
) -> Record
    ensures { result ≡ line_layout d i v.0 encrypted.0 r.0 c.0 round }
{
    Record {
        w0: LINE,
        w1: d,
        w2: i,
        w3: v.0,
        w4: encrypted.0,
        w5: r.0,
        w6: c.0,
        w7: round,
    }
}

// The opening of dealer d.
pub fn opening_record(d: u32, u: Exponent, round: u32) -> Record
    ensures { result ≡ opening_layout d u.0 round }
{
    Record {
        w0: OPENING,
        w1: d,
        w3: u.0,
        w7: round,
        ..Record::ZERO
    }
}

// A decrypted share of dealer d and member i, and its proof's challenge and response: of kind SHARE an opened share, of kind ADDED
// and dealer 0 an added share.
pub fn share_record(
    kind: u32,
    d: u32,
    i: u32,
    decrypted: Element,
    c: Exponent,
    r: Exponent,
    round: u32,
) -> Record
    ensures { result ≡ share_layout kind d i decrypted.0 c.0 r.0 round }
{
    Record {
        w0: kind,
        w1: d,
        w2: i,
        w3: decrypted.0,
        w4: c.0,
        w5: r.0,
        w7: round,
        ..Record::ZERO
    }
}

// The round: the group's number, n and t, the round's own number and the first round under the new rule.
pub fn set_record(number: u32, n: u32, t: u32, round: u32, first: u32) -> Record
    ensures { result ≡ set_layout number n t round first }
{
    Record {
        w0: SET,
        w1: number,
        w2: n,
        w3: t,
        w4: round,
        w5: first,
        ..Record::ZERO
    }
}

pub fn is_key_record(r: Record) -> bool
    ensures { result ≡ is_key_record r }
{
    r == key_record(r.w2, Element(r.w3), r.w7)
}

pub fn is_line_record(r: Record) -> bool
    ensures { result ≡ is_line_record r }
{
    r == line_record(
        r.w1,
        r.w2,
        Element(r.w3),
        Element(r.w4),
        Exponent(r.w5),
        Exponent(r.w6),
        r.w7,
    )
}

pub fn is_opening_record(r: Record) -> bool
    ensures { result ≡ is_opening_record r }
{
    r == opening_record(r.w1, Exponent(r.w3), r.w7)
}

pub fn is_share_record(kind: u32, r: Record) -> bool
    ensures { result ≡ is_share_record kind r }
{
    r == share_record(
        kind,
        r.w1,
        r.w2,
        Element(r.w3),
        Exponent(r.w4),
        Exponent(r.w5),
        r.w7,
    )
}

pub fn is_set_record(r: Record) -> bool
    ensures { result ≡ is_set_record r }
{
    r == set_record(r.w1, r.w2, r.w3, r.w4, r.w5)
}

// Whether a record is of that round, which is tested behind its form.
pub fn is_of_round(round: u32, r: Record) -> bool
    ensures { result ≡ is_of_round round r }
{
    r.w7 == round
}
