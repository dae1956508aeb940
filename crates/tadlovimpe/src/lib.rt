// The operations for C, and for all that call as C does: exported under plain names, with structs laid out as in C. None has a
// `requires`: each returns whatever figures and bytes it is lent. What a caller owes is what the types say, and nothing tests it:
// - A slice is two arguments, a pointer and a length in elements; an array that is lent is the pointer alone.
// - No pointer is null, not even before a length of 0. It names memory that is there, aligned and written before.
// - `out` overlaps no other argument, and nobody else writes what is lent while the call runs.
// An answer is the number of a refusal, 0 where there is none, or a struct that begins with it; the text of `draw` says itself what is
// refused, and its length is the answer. On a refusal `out` keeps what it had and the struct's other fields are 0, but for the count and
// the verdicts of a board that was judged (specs/Claims.antt).
#![tactic(auto)]

mod answers;
mod arithmetic;
mod boards;
mod commitments;
mod posted;
mod seasons;

// The number of a refusal, and the value.
#[repr(C)]
#[derive(Clone, Copy)]
pub struct Answer {
    pub refusal: u32,
    pub value: u32,
}

// A proof with lent figures that x1 is b1 and x2 is b2 to one exponent.
#[repr(C)]
#[derive(Clone, Copy)]
pub struct Proof {
    pub b1: u32,
    pub x1: u32,
    pub b2: u32,
    pub x2: u32,
    pub a1: u32,
    pub a2: u32,
    pub c: u32,
    pub r: u32,
}

// A part of a board: the number of a refusal, how many bytes behind the board's start the part begins, and how many bytes it has.
#[repr(C)]
#[derive(Clone, Copy)]
pub struct Part {
    pub refusal: u32,
    pub start: usize,
    pub length: usize,
}

// A dealer's verdict: 0 none; 1 refused, and the number; 2 opened, and the secret; 3 recovered, and the secret; 4 stuck.
#[repr(C)]
#[derive(Clone, Copy)]
pub struct VerdictFigures {
    pub kind: u32,
    pub value: u32,
}

// A judged board: the number of a refusal, the draw value, the count of accepted dealings, and the verdict on dealer d at d - 1. A board
// that is refused by 13 or 14 was judged: the count and the verdicts stay.
#[repr(C)]
#[derive(Clone, Copy)]
pub struct BoardAnswer {
    pub refusal: u32,
    pub value: u32,
    pub accepted: u32,
    pub verdicts: [VerdictFigures; 31],
}
