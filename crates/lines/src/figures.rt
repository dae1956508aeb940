// Lines as columns: the figures of all members' lines read once, and lines written from such figures.
ghost use Rattle.std.specs.Prelude.{◌≡◌, ◌*◌, ◌≤◌, length};
ghost use Rattle.sharing.specs.Setting.{members};
ghost use Rattle.records.specs.Layout.{records_bytes};
ghost use Rattle.lines.specs.Columns.{columns_of, line_from};

use crate::Columns;
use group::{Element, Exponent};
use records::line_record;
use words::{record_at, write_record};

// The figures of n lines. Internal: callers ensure that the bytes are n records, at most 31.
pub fn read_lines(lines: &[u8], n: usize) -> Columns
    requires { (n ≤ 31) × (length lines.now ≡ 32 * n) }
    ensures { result ≡ columns_of n lines.now }
{
    let mut vs = [0u32; 31];
    let mut encrypted = [0u32; 31];
    let mut rs = [0u32; 31];
    let mut cs = [0u32; 31];
    for i in 0..n {
        let line = record_at(lines, i);
        vs[i] = line.w3;
        encrypted[i] = line.w4;
        rs[i] = line.w5;
        cs[i] = line.w6;
    }
    Columns {
        vs,
        encrypted,
        rs,
        cs,
    }
}

// Writes the line of each of n members under the challenge c, from v, Y and the response r of each.
// Internal: callers ensure that n is at most 31, and just the room for n lines.
pub fn put_lines(
    round: u32,
    d: u32,
    n: usize,
    vs: &[u32; 31],
    encrypted: &[u32; 31],
    rs: &[u32; 31],
    c: Exponent,
    out: &mut [u8],
)
    requires { (n ≤ 31) × (length out.old ≡ 32 * n) }
    ensures { out.new ≡ records_bytes (line_from round d vs.now encrypted.now rs.now c.0) (members n) }
{
    for i in 0..n {
        let line = line_record(
            d,
            i as u32 + 1,
            Element(vs[i]),
            Element(encrypted[i]),
            Exponent(rs[i]),
            c,
            round,
        );
        write_record(&mut out[32 * i..32 * i + 32], line);
    }
}
