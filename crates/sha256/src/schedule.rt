// The message schedule, FIPS 180-4, section 6.2.2, step 1.
ghost use Rattle.std.specs.Prelude.{◌≡◌, ◌<◌, ◌≤◌};
ghost use Rattle.words.specs.Lists.{filled};
ghost use Rattle.sha256.specs.Hash.{later, schedule};

use crate::word::{small_sigma0, small_sigma1};

// The first sixteen words, and 0 in the places of those that follow.
fn first_words(m: &[u32; 16]) -> [u32; 64]
    ensures { result ≡ filled 64 (schedule m.now 16) }
{
    let mut w = [0u32; 64];
    for t in 0..16 {
        w[t] = m[t];
    }
    w
}

// Word t, from 16 on, of the words before it.
fn later_word(w: &[u32; 64], t: usize) -> u32
    requires { (16 ≤ t) × (t < 64) }
    ensures { result ≡ later w.now t }
{
    small_sigma1(w[t - 2])
        .wrapping_add(w[t - 7])
        .wrapping_add(small_sigma0(w[t - 15]))
        .wrapping_add(w[t - 16])
}

// The 64 words of the schedule of a block.
pub(crate) fn schedule(m: &[u32; 16]) -> [u32; 64]
    ensures { result ≡ schedule m.now 64 }
{
    let mut w = first_words(m);
    for t in 16..64 {
        w[t] = later_word(&w, t);
    }
    w
}
