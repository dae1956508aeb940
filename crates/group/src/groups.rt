// Tables of groups: the judge of the bytes of groups.tab, and the group of a number.
ghost use Rattle.std.specs.Prelude.{◌≡◌, ◌+◌, ◌*◌, ◌≤◌, length};
ghost use Rattle.words.specs.Checks.{outcome};
ghost use Rattle.words.specs.Bytes.{records_in};
ghost use Rattle.group.specs.Table.{built_in, is_group_record, group_at, groups_from, groups_of, has_primes, has_generators, groups_checks};
ghost use Rattle.group.specs.Table.{are_groups, table_checks, looked_up, group_outcome};

use crate::membership::is_generator;
use crate::{Element, Group};
use field::is_prime;
use words::{Record, Refusal, record_at};

// A number, as the kinds in `records`.
const GROUP: u32 = 7;

// A built-in group.
fn built_in(number: u32) -> Result<Group, Refusal>
    ensures { result ≡ looked_up built_in number }
{
    match number {
        1 => Ok(Group {
            p: 23,
            q: 11,
            g: Element(4),
            h: Element(9),
        }),
        2 => Ok(Group {
            p: 2039,
            q: 1019,
            g: Element(4),
            h: Element(9),
        }),
        3 => Ok(Group {
            p: 4294967087,
            q: 2147483543,
            g: Element(4),
            h: Element(9),
        }),
        _ => Err(Refusal::UnknownGroup),
    }
}

// The group in the record number i, from 0. Internal: callers ensure that its bytes are there.
fn group_at(table: &[u8], i: usize) -> Group
    requires { 32 * i + 32 ≤ length table.now }
    ensures { result ≡ group_at table.now i }
{
    let r = record_at(table, i);
    Group {
        p: r.w2,
        q: r.w3,
        g: Element(r.w4),
        h: Element(r.w5),
    }
}

// Whether a record is of the form of the group of that number.
#[tactic(auto, unfolding(words::specs::Bytes::agrees))]
fn is_group_record(number: u32, r: Record) -> bool
    ensures { result ≡ is_group_record number r }
{
    r == Record {
        w0: GROUP,
        w1: number,
        w6: 0,
        w7: 0,
        ..r
    }
}

// Whether each record is of the form of the group of its number, from 1. Internal: callers ensure that there are at most 8.
#[tactic(auto, using(crate::proofs::Turns::forms_turn))]
fn are_groups(table: &[u8]) -> bool
    requires { records_in table.now ≤ 8 }
    ensures { result ≡ are_groups table.now 0 (records_in table.now) }
{
    for i in 0..table.len() / 32 {
        if !is_group_record(i as u32 + 1, record_at(table, i)) {
            return false;
        }
    }
    true
}

// Whether q is an odd prime that divides p - 1, and p a prime.
#[tactic(auto, using(crate::proofs::Table::prime_positive), unfolding(crate::specs::Table::has_primes))]
fn has_primes(gr: Group) -> bool
    ensures { result ≡ has_primes gr }
{
    gr.q % 2 == 1 && is_prime(gr.q) && is_prime(gr.p) && (gr.p - 1) % gr.q == 0
}

// Whether g and h are distinct elements other than 1.
#[tactic(auto, unfolding(crate::specs::Table::has_generators))]
fn has_generators(gr: Group) -> bool
    ensures { result ≡ has_generators gr }
{
    is_generator(gr, gr.g) && is_generator(gr, gr.h) && gr.g != gr.h
}

// What the groups are refused by, one after the other: 20 p or q; 21 g or h.
#[tactic(auto, using(crate::proofs::Turns::groups_turn))]
fn check_groups(table: &[u8]) -> Result<(), Refusal>
    ensures { result ≡ outcome (groups_checks (groups_from table.now 0 (records_in table.now))) tt }
{
    for i in 0..table.len() / 32 {
        let gr = group_at(table, i);
        if !has_primes(gr) {
            return Err(Refusal::NotPrime);
        }
        if !has_generators(gr) {
            return Err(Refusal::NoGenerator);
        }
    }
    Ok(())
}

// What the bytes of a table are refused by: 3 not whole records, or more than 8; 4 a record of another form, or out of number; then group
// by group 20 p or q, 21 g or h. No bytes are not refused: they stand for the built-in groups.
pub fn check_table(table: &[u8]) -> Result<(), Refusal>
    ensures { result ≡ outcome (table_checks table.now) tt }
{
    if table.len() % 32 != 0 || table.len() / 32 > 8 {
        return Err(Refusal::BadLength);
    }
    if !are_groups(table) {
        return Err(Refusal::BadForm);
    }
    check_groups(table)
}

// Looks a group up by its number. Refused: 1 no group of that number. Internal: callers have judged the table.
pub fn group_in(table: &[u8], number: u32) -> Result<Group, Refusal>
    ensures { result ≡ looked_up (groups_of table.now) number }
{
    if table.len() == 0 {
        return built_in(number);
    }
    if number < 1 || number as usize > table.len() / 32 {
        return Err(Refusal::UnknownGroup);
    }
    Ok(group_at(table, number as usize - 1))
}

// Judges the table, and looks a group up by its number. Refused: 3, 4, 20 and 21 the table, as check_table; 1 no group of that number.
pub fn group_of(table: &[u8], number: u32) -> Result<Group, Refusal>
    ensures { result ≡ group_outcome table.now number }
{
    check_table(table)?;
    group_in(table, number)
}
