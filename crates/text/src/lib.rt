// The text that `draw` prints, from the bytes of its three files.
#![tactic(auto)]

ghost use Rattle.std.specs.Prelude.{◌≡◌, ◌++◌, length, drop};
ghost use Rattle.verdicts.specs.Shares.{judges};
ghost use Rattle.text.specs.Text.{draw_text};

mod buffer;
mod line;
mod report;

use line::put_refused;
use report::put_report;
use rulings::judge_files;

// Writes what `draw` prints for the bytes of groups.tab, of round.set and of board.bin at the start of `out`, and answers how many bytes
// that is. The other bytes of `out` are kept.
pub fn draw_text(table: &[u8], set: &[u8], board: &[u8], out: &mut [u8; 1024]) -> usize
    ensures { (result ≡ length (draw_text judges table.now set.now board.now))
        × (out.new ≡ draw_text judges table.now set.now board.now ++ drop result out.old) }
{
    match judge_files(table, set, board) {
        Err(refusal) => put_refused(out, 0, refusal),
        Ok(ruling) => put_report(out, ruling.setting, ruling.judgement),
    }
}
