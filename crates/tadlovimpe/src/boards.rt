// A dealer's lines, the board judge, and the text of `draw`.
ghost use Rattle.std.specs.Prelude.{◌≡◌, ◌++◌, length, drop};
ghost use Rattle.board.specs.Board.{lines_outcome};
ghost use Rattle.verdicts.specs.Shares.{judges};
ghost use Rattle.text.specs.Text.{draw_text};
ghost use Rattle.tadlovimpe.specs.Figures.{number_of, part_on, board_on};

use crate::answers::{number_of, verdicts_of};
use crate::{Answer, BoardAnswer, Part, VerdictFigures};
use board::{lines_check, lines_of, place_of};
use records::LINE;
use sharing::Round;

// board::lines_check
#[unsafe(no_mangle)]
pub extern "C" fn tadlovimpe_lines_check(
    table: &[u8],
    round: Round,
    dealer: u32,
    board: &[u8],
) -> u32
    ensures { result ≡ number_of (lines_outcome table.now round dealer board.now) }
{
    number_of(lines_check(table, round, dealer, board))
}

// board::dealer_lines, as the place of the part and its length
#[unsafe(no_mangle)]
pub extern "C" fn tadlovimpe_dealer_lines(
    table: &[u8],
    round: Round,
    dealer: u32,
    board: &[u8],
) -> Part
    ensures { result ≡ part_on table.now round dealer board.now }
{
    match lines_check(table, round, dealer, board) {
        Err(refusal) => Part {
            refusal: u32::from(refusal),
            start: 0,
            length: 0,
        },
        Ok(()) => {
            let start = 32 * place_of(board, LINE, dealer, 0);
            let part = lines_of(board, dealer);
            Part {
                refusal: 0,
                start,
                length: part.len(),
            }
        }
    }
}

// rulings::judge_board
#[unsafe(no_mangle)]
pub extern "C" fn tadlovimpe_judge_board(table: &[u8], round: Round, board: &[u8]) -> BoardAnswer
    ensures { result ≡ board_on judges table.now round board.now }
{
    match &rulings::judge_board(table, round, board) {
        Err(refusal) => BoardAnswer {
            refusal: u32::from(*refusal),
            value: 0,
            accepted: 0,
            verdicts: [VerdictFigures { kind: 0, value: 0 }; 31],
        },
        Ok(judged) => {
            let draw = Answer::from(judged.draw);
            BoardAnswer {
                refusal: draw.refusal,
                value: draw.value,
                accepted: judged.accepted,
                verdicts: verdicts_of(&judged.verdicts),
            }
        }
    }
}

// text::draw_text
#[unsafe(no_mangle)]
pub extern "C" fn tadlovimpe_draw_text(
    table: &[u8],
    set: &[u8],
    board: &[u8],
    out: &mut [u8; 1024],
) -> usize
    ensures { (result ≡ length (draw_text judges table.now set.now board.now))
        × (out.new ≡ draw_text judges table.now set.now board.now ++ drop result out.old) }
{
    text::draw_text(table, set, board, out)
}
