// The form and order of a board's records, refused record by record.
ghost use Rattle.std.specs.Prelude.{◌≡◌};
ghost use Rattle.words.specs.Checks.{outcome};
ghost use Rattle.words.specs.Bytes.{records_in};
ghost use Rattle.board.specs.Board.{is_shaped, is_below, record_checks, form_checks};
ghost use Rattle.board.specs.Loops.{next_record_checks};

use crate::search::record_count;
use records::{
    ADDED, KEY, LINE, OPENING, SHARE, is_key_record, is_line_record, is_of_round,
    is_opening_record, is_share_record,
};
use sharing::{Setting, is_member};
use words::{Record, Refusal, record_at};

// Whether r is a record of the table, for n members; its round is tested apart.
#[tactic(auto, unfolding(crate::specs::Board::is_shaped, words::specs::Bytes::agrees))]
fn is_shaped(n: u32, r: Record) -> bool
    ensures { result ≡ is_shaped n r }
{
    match r.w0 {
        KEY => is_key_record(r) && is_member(n, r.w2),
        LINE => is_line_record(r) && is_member(n, r.w1) && is_member(n, r.w2),
        OPENING => is_opening_record(r) && is_member(n, r.w1),
        SHARE => is_share_record(SHARE, r) && is_member(n, r.w1) && is_member(n, r.w2),
        ADDED => is_share_record(ADDED, r) && r.w1 == 0 && is_member(n, r.w2),
        _ => false,
    }
}

// Whether r is below the address of kind k, dealer d and member m.
pub(crate) fn is_below(r: Record, k: u32, d: u32, m: u32) -> bool
    ensures { result ≡ is_below r k d m }
{
    (r.w0, r.w1, r.w2) < (k, d, m)
}

// What the record r is refused by behind the record before: 4 it is none of the table; 17 it is of another round; 5 it is not above the one
// before.
fn check_record(s: Setting, before: Record, r: Record) -> Result<(), Refusal>
    ensures { result ≡ outcome (next_record_checks s before r) tt }
{
    if !is_shaped(s.n, r) {
        return Err(Refusal::BadForm);
    }
    if !is_of_round(s.round, r) {
        return Err(Refusal::OtherRound);
    }
    if !is_below(before, r.w0, r.w1, r.w2) {
        return Err(Refusal::OutOfOrder);
    }
    Ok(())
}

// What the records are refused by, one after the other: 4, 17 and 5. Of kind 0, what stands before the first is below every record of the
// table.
#[tactic(auto, using(crate::proofs::Steps::records_turn, crate::proofs::Steps::before_next))]
fn check_records(s: Setting, b: &[u8]) -> Result<(), Refusal>
    ensures { result ≡ outcome (record_checks s b.now 0 (records_in b.now)) tt }
{
    let mut before = Record::ZERO;
    for i in 0..record_count(b) {
        let r = record_at(b, i);
        check_record(s, before, r)?;
        before = r;
    }
    Ok(())
}

// What the form of a board is refused by: 3 not whole records or more than 2,048; 4, 17 and 5 record by record.
#[tactic(auto, unfolding(crate::specs::Board::form_checks))]
pub(crate) fn check_form(s: Setting, b: &[u8]) -> Result<(), Refusal>
    ensures { result ≡ outcome (form_checks s b.now) tt }
{
    if b.len() % 32 != 0 || record_count(b) > 2048 {
        return Err(Refusal::BadLength);
    }
    check_records(s, b)
}
