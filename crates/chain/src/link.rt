// One link of the chain: its figures, its digest, and what it is refused by.
ghost use Rattle.std.specs.Prelude.{◌≡◌};
ghost use Rattle.words.specs.Checks.{outcome};
ghost use Rattle.group.specs.Table.{groups_of};
ghost use Rattle.chain.specs.Link.{link_layout, is_link_record, link_digest, value_checks, link_checks};

use group::{Element, group_in, is_element};
use sha256::digest;
use words::{Record, Refusal, passed_if, put_word, write_record};

// The figures of a link: the round, the draw value and the group's number.
pub(crate) fn link_record(round: u32, value: Element, number: u32) -> Record
    ensures { result ≡ link_layout round value.0 number }
{
    Record {
        w0: round,
        w1: value.0,
        w2: number,
        ..Record::ZERO
    }
}

// Whether the spare bytes behind the figures are 0.
#[tactic(auto, unfolding(words::specs::Bytes::agrees))]
fn is_link_record(r: Record) -> bool
    ensures { result ≡ is_link_record r }
{
    r == link_record(r.w0, Element(r.w1), r.w2)
}

// The digest of a link, behind the digest before it. A digest of 40 bytes is not refused.
pub(crate) fn link_digest(before: Record, value: Element, round: u32) -> Record
    ensures { result ≡ link_digest before value.0 round }
{
    let mut m = [0u8; 40];
    write_record(&mut m[..32], before);
    put_word(&mut m, 32, value.0);
    put_word(&mut m, 36, round);
    let Ok(d) = digest(&m) else {
        return before;
    };
    d
}

// What a draw value is refused by: 1 no group of that number; 6 no element of it.
// Internal: callers have judged the table.
pub(crate) fn check_value(table: &[u8], number: u32, value: Element) -> Result<(), Refusal>
    ensures { result ≡ outcome (value_checks (groups_of table.now) number value.0) tt }
{
    let gr = group_in(table, number)?;
    passed_if(is_element(gr, value), Refusal::NoElement)
}

// What a link is refused by, as the link of this round behind this digest: 4 a spare byte; 1 and 6 the draw value, as check_value; 19 the
// round; 18 the digest. Internal: callers have judged the table.
#[tactic(auto, unfolding(words::specs::Bytes::agrees))]
pub(crate) fn check_link(
    table: &[u8],
    before: Record,
    round: u32,
    figures: Record,
    digest: Record,
) -> Result<(), Refusal>
    ensures { result ≡ outcome (link_checks (groups_of table.now) before round figures digest) tt }
{
    if !is_link_record(figures) {
        return Err(Refusal::BadForm);
    }
    let value = Element(figures.w1);
    check_value(table, figures.w2, value)?;
    if figures.w0 != round {
        return Err(Refusal::NotNext);
    }
    let right = link_digest(before, value, figures.w0);
    passed_if(digest == right, Refusal::WrongDigest)
}
