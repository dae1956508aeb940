// SHA-256, as FIPS 180-4 defines it.
#![tactic(auto)]

ghost use Rattle.std.specs.Prelude.{◌≡◌};
ghost use Rattle.sha256.specs.Answer.{digest_outcome};

mod constants;
mod padding;
mod schedule;
mod state;
mod word;

pub use state::State;
use words::{Record, Refusal};

// The digest of a message of at most 65,536 bytes; a longer one is refused 3.
pub fn digest(s: &[u8]) -> Result<Record, Refusal>
    ensures { result ≡ digest_outcome s.now }
{
    if 65536 < s.len() {
        return Err(Refusal::BadLength);
    }
    let mut state = State::new();
    for i in 0..padding::blocks(s) {
        state = state.absorb(&padding::block(s, i));
    }
    Ok(state.hash_value())
}
