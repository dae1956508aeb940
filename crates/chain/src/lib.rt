// The chain of seasons: each link has the draw value of a season, and a digest that hangs on the one before.
#![tactic(auto)]

ghost use Rattle.std.specs.Prelude.{◌≡◌, ◌≤◌, ◌<◌, length};
ghost use Rattle.words.specs.Checks.{outcome};
ghost use Rattle.group.specs.Table.{groups_of};
ghost use Rattle.chain.specs.Chain.{links_in, digest_after, links_checks, linked_checks, chain_outcome};
ghost use Rattle.chain.specs.Chain.{next_link, extend_checks, extend_outcome, lent_link};

mod link;

use group::{Element, check_table};
use link::{check_link, check_value, link_digest, link_record};
use words::{Record, Refusal, record_at, write_record};

// The number of links.
fn links(b: &[u8]) -> usize
    ensures { result ≡ links_in b.now }
{
    b.len() / 64
}

// What the links are refused by, one after the other: 4, 1, 6, 19 and 18.
// Internal: callers ensure that there are at most 1,024, and have judged the table.
#[tactic(auto, using(crate::proofs::Steps::link_passed), unfolding(crate::specs::Chain::digest_after))]
fn check_links(table: &[u8], b: &[u8]) -> Result<(), Refusal>
    requires { links_in b.now ≤ 1024 }
    ensures { result ≡ outcome (links_checks (groups_of table.now) b.now 0 (links_in b.now)) tt }
{
    let mut before = Record::ZERO;
    for i in 0..links(b) {
        let digest = record_at(b, 2 * i + 1);
        check_link(table, before, i as u32 + 1, record_at(b, 2 * i), digest)?;
        before = digest;
    }
    Ok(())
}

// What a chain is refused by: 3 not whole links, or more than 1,024; 4, 1, 6, 19 and 18 link by link.
// Internal: callers have judged the table.
#[tactic(auto, unfolding(crate::specs::Chain::linked_checks))]
fn check_linked(table: &[u8], b: &[u8]) -> Result<(), Refusal>
    ensures { result ≡ outcome (linked_checks (groups_of table.now) b.now) tt }
{
    if b.len() % 64 != 0 || links(b) > 1024 {
        return Err(Refusal::BadLength);
    }
    check_links(table, b)
}

// Judges a chain. Refused: 3, 4, 20 and 21 the table, as check_table; 3 not whole links, or more than 1,024; then link by link 4 a spare
// byte is not 0; 1 no group of that number; 6 the draw value is no element; 19 the round is not the next; 18 the digest is wrong. A chain of
// no links passes.
pub fn judge_chain(table: &[u8], b: &[u8]) -> Result<(), Refusal>
    ensures { result ≡ chain_outcome table.now b.now }
{
    check_table(table)?;
    check_linked(table, b)
}

// What an extension is refused by: table and chain, as judge_chain; 3 a full chain, or not the room of one link; 1 and 6 the draw value,
// as check_value.
#[tactic(auto, using(crate::proofs::Steps::behind_chain))]
fn check_extension(
    table: &[u8],
    b: &[u8],
    number: u32,
    value: Element,
    room: usize,
) -> Result<(), Refusal>
    ensures { result ≡ outcome (extend_checks table.now b.now number value.0 room) tt }
{
    judge_chain(table, b)?;
    if links(b) >= 1024 || room != 64 {
        return Err(Refusal::BadLength);
    }
    check_value(table, number, value)
}

// The digest of the last link, or what stands for it in a chain of none.
#[tactic(auto, unfolding(crate::specs::Chain::digest_after))]
fn last_digest(b: &[u8]) -> Record
    ensures { result ≡ digest_after b.now (links_in b.now) }
{
    let all = links(b);
    if all == 0 {
        return Record::ZERO;
    }
    record_at(b, 2 * all - 1)
}

// Writes the next link. Internal: callers ensure a chain that is not full, and the room of one link.
fn put_next(b: &[u8], number: u32, value: Element, out: &mut [u8])
    requires { (links_in b.now < 1024) × (length out.old ≡ 64) }
    ensures { out.new ≡ next_link b.now number value.0 }
{
    let round = links(b) as u32 + 1;
    let digest = link_digest(last_digest(b), value, round);
    write_record(&mut out[..32], link_record(round, value, number));
    write_record(&mut out[32..], digest);
}

// Extends a chain by the draw value of the next season: writes the next link, of 64 bytes, over the lent output. Refused, with the output
// unchanged: the numbers of judge_chain; 3 the chain is full, or the output is not of 64 bytes; 1 no group of that number; 6 the draw value
// is no element.
#[tactic(auto, unfolding(crate::specs::Chain::extend_outcome, crate::specs::Chain::lent_link))]
pub fn extend_chain(
    table: &[u8],
    b: &[u8],
    number: u32,
    value: Element,
    out: &mut [u8],
) -> Result<(), Refusal>
    ensures result_value { result ≡ extend_outcome table.now b.now number value.0 (length out.old) }
    ensures out_after { out.new ≡ lent_link table.now b.now number value.0 out.old }
{
    check_extension(table, b, number, value, out.len())?;
    put_next(b, number, value, out);
    Ok(())
}
