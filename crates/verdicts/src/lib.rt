// Every dealer's verdict, the count of accepted dealings and the draw.
#![tactic(auto)]

mod added;
mod judge;
mod shares;
mod verdicts;

use group::Element;
pub use judge::all_verdicts;
use words::Refusal;

// How the secret of an accepted dealing came.
#[derive(Clone, Copy)]
pub enum Secret {
    Opened(Element),
    Recovered(Element),
    Stuck,
}

#[derive(Clone, Copy)]
pub enum Verdict {
    None,
    Refused(Refusal),
    Accepted(Secret),
}

// The lowest members with accepted shares, and these shares: two arrays with 0 behind them, and how many there are.
// No ArrayVec: with `push` it reads as plainly, and the library rests on no further crate of the kit.
#[derive(Clone, Copy)]
pub struct GatheredShares {
    pub members: [u32; 31],
    pub shares: [u32; 31],
    pub count: usize,
}

// Every dealer's verdict (dealer d at d - 1, those above n None), the count of accepted dealings, and the draw: the beacon's output,
// or why it is refused.
#[derive(Clone, Copy)]
pub struct Judgement {
    pub verdicts: [Verdict; 31],
    pub accepted: u32,
    pub draw: Result<Element, Refusal>,
}
