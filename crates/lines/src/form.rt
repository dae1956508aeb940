// The form of a dealing's lines: each of its kind, of the dealer and of the member of its place, and then each of the round.
ghost use Rattle.std.specs.Prelude.{◌≡◌, ◌*◌, length};
ghost use Rattle.words.specs.Lists.{all};
ghost use Rattle.words.specs.Checks.{outcome};
ghost use Rattle.words.specs.Bytes.{record_in};
ghost use Rattle.sharing.specs.Setting.{members};
ghost use Rattle.lines.specs.Lines.{is_line_for, is_line_of, is_line_of_round, line_checks};

use records::{is_line_record, is_of_round};
use sharing::Setting;
use words::{Refusal, read_record, record_at};

// Whether a record is a line of the dealer d for member i. Internal: callers ensure that the bytes are one record.
#[tactic(auto, unfolding(crate::specs::Lines::is_line_for))]
fn is_line_for(d: u32, i: u32, line: &[u8]) -> bool
    requires { length line.now ≡ 32 }
    ensures { result ≡ is_line_for d i (record_in line.now) }
{
    let r = read_record(line);
    is_line_record(r) && r.w1 == d && r.w2 == i
}

// Whether each member's record is a line of the dealer d for him. Internal: callers ensure that the bytes are n records.
fn all_lines(d: u32, lines: &[u8], n: u32) -> bool
    requires { length lines.now ≡ 32 * n }
    ensures { result ≡ all (is_line_of d lines.now) (members n) }
{
    (0..n as usize).all(|i| is_line_for(d, i as u32 + 1, &lines[32 * i..32 * i + 32]))
}

// Whether each member's record is of that round. Internal: callers ensure that the bytes are n records.
fn all_of_round(round: u32, lines: &[u8], n: u32) -> bool
    requires { length lines.now ≡ 32 * n }
    ensures { result ≡ all (is_line_of_round round lines.now) (members n) }
{
    (0..n as usize).all(|i| is_of_round(round, record_at(lines, i)))
}

// What the lines of the dealer d are refused by: 4 a record that is no line of d for the member of its place; 17 a line of another round.
// Internal: callers ensure that the bytes are n records.
#[tactic(auto, unfolding(crate::specs::Lines::line_checks))]
pub fn check_lines(s: Setting, d: u32, lines: &[u8]) -> Result<(), Refusal>
    requires { length lines.now ≡ 32 * s.n }
    ensures { result ≡ outcome (line_checks s d lines.now) tt }
{
    if !all_lines(d, lines, s.n) {
        return Err(Refusal::BadForm);
    }
    if !all_of_round(s.round, lines, s.n) {
        return Err(Refusal::OtherRound);
    }
    Ok(())
}
