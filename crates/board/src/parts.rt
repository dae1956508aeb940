// The part of a board that holds a dealer's lines.
ghost use Rattle.std.specs.Prelude.{◌≡◌, ◌*◌};
ghost use Rattle.words.specs.Checks.{outcome};
ghost use Rattle.board.specs.Board.{lines_start, lines_of, lines_checks, lines_outcome, lines_part, lines_at, behind};
ghost use Rattle.board.specs.Sorted.{Sorted};

use crate::form::check_form;
use crate::search::place_of;
use records::LINE;
use sharing::{Round, Setting, is_member, setting_of};
use words::Refusal;

// The lines of dealer d as they lie on the board.
// Internal: callers ensure that the records ascend.
pub fn lines_of(b: &[u8], d: u32) -> &[u8]
    requires { Sorted b.now }
    ensures result_value { result.now ≡ lines_of b.now d }
    ensures ref_ptr_value { result.ref_ptr ≡ behind (32 * lines_start b.now d) b.entry.ref_ptr }
{
    let from = 32 * place_of(b, LINE, d, 0);
    let to = 32 * place_of(b, LINE, d, 32);
    &b[from..to]
}

// What the lines of dealer d are refused by: 8 d is no member; 3, 4, 17 and 5 the board's form.
#[tactic(auto, unfolding(crate::specs::Board::lines_checks))]
fn check_lines(s: Setting, d: u32, b: &[u8]) -> Result<(), Refusal>
    ensures { result ≡ outcome (lines_checks s d b.now) tt }
{
    if !is_member(s.n, d) {
        return Err(Refusal::NoMember);
    }
    check_form(s, b)
}

// Whether the lines of dealer d can be told. Refused: as setting_of; 8 d is no member; 3, 4, 17 and 5 the board's form.
pub fn lines_check(table: &[u8], rd: Round, d: u32, b: &[u8]) -> Result<(), Refusal>
    ensures { result ≡ lines_outcome table.now rd d b.now }
{
    let s = setting_of(table, rd)?;
    check_lines(s, d, b)
}

// The lines of dealer d: the part of the caller's board that holds them, empty where lines_check refuses.
pub fn dealer_lines<'a>(table: &[u8], rd: Round, d: u32, b: &'a [u8]) -> &'a [u8]
    ensures result_value { result.now ≡ lines_part table.now rd d b.now }
    ensures ref_ptr_value { result.ref_ptr ≡ behind (lines_at table.now rd d b.now) b.entry.ref_ptr }
{
    match lines_check(table, rd, d, b) {
        Err(_) => &b[0..0],
        Ok(()) => lines_of(b, d),
    }
}
