// An array with a number for each member: of 31, whatever n is, for nothing is allocated.
ghost use Rattle.std.specs.Prelude.{◌≡◌, ℕ, ◌+◌, ◌<◌, ◌≤◌};
ghost use Rattle.words.specs.Lists.{map, filled};
ghost use Rattle.sharing.specs.Setting.{members};

// What f gives for the place of each member, which is one below his number, and 0 behind them: where each call gives the number that h
// has for the member, the array is that of h. Internal: callers ensure that n is at most 31, and that f may be called at these places.
pub(crate) fn for_members<F: Fn(usize) -> u32>(n: usize, f: F) -> [u32; 31]
    requires few { n ≤ 31 }
    requires callable { (i : ℕ) → i < n → F.pre f i }
    ensures { (h : ℕ → ℕ) → ((i x : ℕ) → i < n → F.post f i x → x ≡ h (i + 1)) → result ≡ filled 31 (map h (members n)) }
{
    let mut xs = [0u32; 31];
    for i in 0..n {
        xs[i] = f(i);
    }
    xs
}
