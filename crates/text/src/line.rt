// The lines of the text. Each function answers the place behind what it wrote.
ghost use Rattle.std.specs.Prelude.{◌++◌};
ghost use Rattle.text.specs.Text.{figure, new_line, refused_line, secret_text, verdict_text, dealer_line, draw_line, round_line};
ghost use Rattle.text.specs.Buffer.{Room, Written};

use crate::buffer::{put_bytes, put_figure};
use group::Element;
use sharing::Setting;
use verdicts::{Secret, Verdict};
use words::Refusal;

// Writes a word and a figure from `at` on. Internal: callers ensure room for them.
fn put_worded(out: &mut [u8], at: usize, word: &[u8], v: u32) -> usize
    requires { Room at (word.now ++ figure v) out.old }
    ensures { Written at (word.now ++ figure v) out.old out.new result }
{
    let next = put_bytes(out, at, word);
    put_figure(out, next, v)
}

// Writes a line of a word and a figure from `at` on. Internal: callers ensure room for it.
pub(crate) fn put_line(out: &mut [u8], at: usize, word: &[u8], v: u32) -> usize
    requires { Room at (word.now ++ (figure v ++ new_line)) out.old }
    ensures { Written at (word.now ++ (figure v ++ new_line)) out.old out.new result }
{
    let next = put_worded(out, at, word, v);
    put_bytes(out, next, b"\n")
}

// Writes the line of a refusal from `at` on. Internal: callers ensure room for it.
pub(crate) fn put_refused(out: &mut [u8], at: usize, refusal: Refusal) -> usize
    requires { Room at (refused_line refusal) out.old }
    ensures { Written at (refused_line refusal) out.old out.new result }
{
    put_line(out, at, b"refused", u32::from(refusal))
}

// Writes how a secret came, and its value, from `at` on. Internal: callers ensure room for it.
fn put_secret(out: &mut [u8], at: usize, s: Secret) -> usize
    requires { Room at (secret_text s) out.old }
    ensures { Written at (secret_text s) out.old out.new result }
{
    match s {
        Secret::Opened(v) => put_worded(out, at, b"opened", v.0),
        Secret::Recovered(v) => put_worded(out, at, b"recovered", v.0),
        Secret::Stuck => put_bytes(out, at, b"stuck"),
    }
}

// Writes a verdict from `at` on. Internal: callers ensure room for it.
fn put_verdict(out: &mut [u8], at: usize, v: Verdict) -> usize
    requires { Room at (verdict_text v) out.old }
    ensures { Written at (verdict_text v) out.old out.new result }
{
    match v {
        Verdict::None => put_bytes(out, at, b"none"),
        Verdict::Refused(refusal) => put_worded(out, at, b"refused", u32::from(refusal)),
        Verdict::Accepted(s) => put_secret(out, at, s),
    }
}

// Writes the line of the dealer d from `at` on. Internal: callers ensure room for it.
pub(crate) fn put_dealer(out: &mut [u8], at: usize, d: u32, v: Verdict) -> usize
    requires { Room at (dealer_line d v) out.old }
    ensures { Written at (dealer_line d v) out.old out.new result }
{
    let a = put_worded(out, at, b"dealer", d);
    let b = put_bytes(out, a, b" ");
    let c = put_verdict(out, b, v);
    put_bytes(out, c, b"\n")
}

// Writes the line of the round from `at` on. Internal: callers ensure room for it.
pub(crate) fn put_round(out: &mut [u8], at: usize, s: Setting) -> usize
    requires { Room at (round_line s) out.old }
    ensures { Written at (round_line s) out.old out.new result }
{
    let a = put_worded(out, at, b"round", s.number);
    let b = put_figure(out, a, s.n);
    let c = put_figure(out, b, s.t);
    put_bytes(out, c, b"\n")
}

// Writes the last line from `at` on. Internal: callers ensure room for it.
pub(crate) fn put_draw(out: &mut [u8], at: usize, draw: Result<Element, Refusal>) -> usize
    requires { Room at (draw_line draw) out.old }
    ensures { Written at (draw_line draw) out.old out.new result }
{
    match draw {
        Ok(v) => put_line(out, at, b"draw", v.0),
        Err(refusal) => put_refused(out, at, refusal),
    }
}
