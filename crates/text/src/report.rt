// The report on a board whose verdicts are reached.
ghost use Rattle.std.specs.Prelude.{◌≤◌};
ghost use Rattle.text.specs.Text.{dealer_lines};
ghost use Rattle.text.specs.Buffer.{Room, Written};
ghost use Rattle.text.specs.Report.{verdicts_at, report_from};

use crate::line::{put_dealer, put_draw, put_line, put_round};
use sharing::Setting;
use verdicts::{Judgement, Verdict};

// Writes the lines of the dealers 1 to n from `at` on, and answers the place behind them.
// Internal: callers ensure that n is at most 31, and room for the lines.
fn put_dealers(out: &mut [u8], at: usize, n: u32, verdicts: [Verdict; 31]) -> usize
    requires { (n ≤ 31) × (Room at (dealer_lines 1 (verdicts_at n verdicts)) out.old) }
    ensures { Written at (dealer_lines 1 (verdicts_at n verdicts)) out.old out.new result }
{
    let mut next = at;
    for i in 0..n {
        next = put_dealer(out, next, i + 1, verdicts[i as usize]);
    }
    next
}

// Writes the report at the start of `out`, and answers its length. Internal: callers ensure that n is at most 31, and room for it.
pub(crate) fn put_report(out: &mut [u8], s: Setting, judgement: Judgement) -> usize
    requires { (s.n ≤ 31) × (Room 0 (report_from s judgement) out.old) }
    ensures { Written 0 (report_from s judgement) out.old out.new result }
{
    let a = put_round(out, 0, s);
    let b = put_dealers(out, a, s.n, judgement.verdicts);
    let c = put_line(out, b, b"accepted", judgement.accepted);
    put_draw(out, c, judgement.draw)
}
