// Decrypted shares, opened or added: the writers and the judges.
#![tactic(auto)]

mod form;
mod judge;
mod writer;

pub use form::{added_form, opened_form};
use group::Element;
pub use judge::{judge_added, judge_share, judge_share_figures};
pub use writer::{write_added, write_share};

// The form of a share: the tag of its message, the kind of its record, and its dealer, 0 for an added share. No enum of the two: the laws
// of shares hold of every such form.
#[derive(Clone, Copy)]
pub struct ShareForm {
    pub tag: u8,
    pub kind: u32,
    pub dealer: u32,
}

// An encrypted share, as a decrypted one is written from it and judged for it: the form of the decrypted one, the member, and the
// encrypted share of his line, or for an added share the product of those of his lines over all accepted dealings.
#[derive(Clone, Copy)]
pub struct EncryptedShare {
    pub form: ShareForm,
    pub member: u32,
    pub encrypted: Element,
}
