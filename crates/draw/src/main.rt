// Reads groups.tab, round.set and board.bin from the current folder, and writes the text of the draw to standard output.
#![tactic(auto)]

use files::read_or_empty;
use std::io::{self, Write};

// Each space has one byte more than the longest file that is not refused for its length.
fn main(rt: HostRuntime) {
    let mut table = [0u8; 257];
    let mut set = [0u8; 33];
    let mut board = [0u8; 65537];
    let mut out = [0u8; 1024];
    let a = read_or_empty(&rt, b"groups.tab", &mut table);
    let b = read_or_empty(&rt, b"round.set", &mut set);
    let c = read_or_empty(&rt, b"board.bin", &mut board);
    let n = text::draw_text(&table[..a], &set[..b], &board[..c], &mut out);
    let _ = io::writer(&rt).write_all(&out[0..n]);
}
