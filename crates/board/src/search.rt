// Searches over the records of a board that ascend: places are found by bisection.
ghost use Rattle.std.specs.Prelude.{◌≡◌};
ghost use Rattle.words.specs.Bytes.{records_in};
ghost use Rattle.board.specs.Board.{place_of, is_at, record_place, key_place, opening_place};
ghost use Rattle.board.specs.Sorted.{Sorted};

use crate::form::is_below;
use records::{KEY, OPENING};
use words::{Record, read_record, record_at};

// The number of records.
pub fn record_count(b: &[u8]) -> usize
    ensures { result ≡ records_in b.now }
{
    b.len() / 32
}

// The place of the address of kind k, dealer d and member m: how many records are below it.
// Internal: callers ensure that the records ascend.
pub fn place_of(b: &[u8], k: u32, d: u32, m: u32) -> usize
    requires { Sorted b.now }
    ensures { result ≡ place_of b.now k d m }
{
    let (records, _) = b.as_chunks::<32>();
    records.partition_point(|r| is_below(read_record(r), k, d, m))
}

// Whether r has the address of kind k, dealer d and member m.
#[tactic(auto, unfolding(crate::specs::Board::is_at))]
fn is_at(r: Record, k: u32, d: u32, m: u32) -> bool
    ensures { result ≡ is_at r k d m }
{
    r.w0 == k && r.w1 == d && r.w2 == m
}

// Where the record with the address of kind k, dealer d and member m stands, the number of records where there is none.
// Internal: callers ensure that the records ascend.
fn record_place(b: &[u8], k: u32, d: u32, m: u32) -> usize
    requires { Sorted b.now }
    ensures { result ≡ record_place b.now k d m }
{
    let all = record_count(b);
    let at = place_of(b, k, d, m);
    if at < all && is_at(record_at(b, at), k, d, m) {
        at
    } else {
        all
    }
}

// Where the key record of member m stands, the number of records where there is none.
// Internal: callers ensure that the records ascend.
pub fn find_key(b: &[u8], m: u32) -> usize
    requires { Sorted b.now }
    ensures { result ≡ key_place b.now m }
{
    record_place(b, KEY, 0, m)
}

// Where the opening of dealer d stands, the number of records where there is none.
// Internal: callers ensure that the records ascend.
pub fn find_opening(b: &[u8], d: u32) -> usize
    requires { Sorted b.now }
    ensures { result ≡ opening_place b.now d }
{
    record_place(b, OPENING, d, 0)
}
