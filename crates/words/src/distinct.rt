// A test over a list of words: that none stands twice.
ghost use Rattle.std.specs.Prelude.{◌≡◌};
ghost use Rattle.words.specs.Lists.{none_twice};

// Whether no word stands twice in the list: none is among those behind it.
pub fn none_twice(xs: &[u32]) -> bool
    ensures { result ≡ none_twice xs.now }
{
    for (i, x) in xs.iter().enumerate() {
        if xs[i + 1..].contains(x) {
            return false;
        }
    }
    true
}
