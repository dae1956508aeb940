// Bytes and figures written into a buffer. Each function answers the place behind what it wrote.
// Not by `write!`: the clauses of std's writer into lent bytes count what it wrote, and do not say which bytes.
ghost use Rattle.text.specs.Text.{digits, figure};
ghost use Rattle.text.specs.Buffer.{Room, Written};

// Writes the bytes of `text` from `at` on. Internal: callers ensure room for them.
pub(crate) fn put_bytes(out: &mut [u8], at: usize, text: &[u8]) -> usize
    requires { Room at text.now out.old }
    ensures { Written at text.now out.old out.new result }
{
    let end = at + text.len();
    out[at..end].copy_from_slice(text);
    end
}

// Writes the decimal digits of v from `at` on, those before the last one first. Internal: callers ensure room for them.
fn put_digits(out: &mut [u8], at: usize, v: u32) -> usize
    requires { Room at (digits 10 v) out.old }
    ensures { Written at (digits 10 v) out.old out.new result }
{
    if v < 10 {
        out[at] = b'0' + v as u8;
        return at + 1;
    }
    let last = put_digits(out, at, v / 10);
    out[last] = b'0' + (v % 10) as u8;
    last + 1
}

// Writes a space and the figure v from `at` on. Internal: callers ensure room for them.
pub(crate) fn put_figure(out: &mut [u8], at: usize, v: u32) -> usize
    requires { Room at (figure v) out.old }
    ensures { Written at (figure v) out.old out.new result }
{
    out[at] = b' ';
    put_digits(out, at + 1, v)
}
