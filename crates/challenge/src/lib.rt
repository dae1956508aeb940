// The hashed messages, and the exponents that their digests give.
#![tactic(auto)]

mod exponent;
mod message;

use group::Element;
pub use message::{ADDED_TAG, SHARE_TAG, check_polynomial, dealing_challenge, share_challenge};

// What the challenge of a decrypted share is drawn from: dealer (0 for an added share) and member, the member's key y, the encrypted
// and the decrypted share, and the announcements.
#[derive(Clone, Copy)]
pub struct ShareFigures {
    pub dealer: u32,
    pub member: u32,
    pub y: Element,
    pub encrypted: Element,
    pub decrypted: Element,
    pub a1: Element,
    pub a2: Element,
}
