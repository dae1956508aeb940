// A plot's rank, and the keys by which plots are sorted.
ghost use Rattle.std.specs.Prelude.{◌≡◌, ◌≤◌, length};
ghost use Rattle.words.specs.Lists.{map};
ghost use Rattle.plots.specs.Rank.{rank};
ghost use Rattle.plots.specs.Sorting.{sort_key, keys_of, plot_of};

use group::Element;
use sha256::digest;
use words::put_word;

// A byte, as the tags in `challenge`.
const PLOT_TAG: u8 = 0x4C;

// The rank of a plot: the first four bytes of its message's digest, as a number. A digest of ten bytes is not refused.
fn rank(value: Element, radius: u8, plot: u32) -> u32
    ensures { result ≡ rank value.0 radius plot }
{
    let mut m = [0u8; 10];
    m[0] = PLOT_TAG;
    m[1] = radius;
    put_word(&mut m, 2, value.0);
    put_word(&mut m, 6, plot);
    let Ok(d) = digest(&m) else {
        return 0;
    };
    d.w0
}

// The key of a plot: its rank, and behind it its number counted down from the largest word, for of equal ranks the higher number comes
// first.
#[tactic(auto, unfolding(crate::specs::Sorting::sort_key))]
fn key(value: Element, radius: u8, plot: u32) -> u64
    ensures { result ≡ sort_key (rank value.0 radius) plot }
{
    rank(value, radius, plot) as u64 * 4294967296 + (4294967295 - plot as u64)
}

// The plot of a key.
fn plot_of(key: u64) -> u32
    ensures { result ≡ plot_of key }
{
    4294967295 - (key % 4294967296) as u32
}

// Writes the key of each plot from 1 on. Internal: callers ensure at most 4,096 plots.
pub(crate) fn put_keys(keys: &mut [u64], value: Element, radius: u8)
    requires { length keys.old ≤ 4096 }
    ensures { keys.new ≡ keys_of value.0 radius (length keys.old) }
{
    for (i, place) in keys.iter_mut().enumerate() {
        *place = key(value, radius, i as u32 + 1);
    }
}

// Writes the plot of each key. Internal: callers ensure just the room for them.
pub(crate) fn put_plots(keys: &[u64], out: &mut [u32])
    requires { length out.old ≡ length keys.now }
    ensures { out.new ≡ map plot_of keys.now }
{
    for (i, &key) in keys.iter().enumerate() {
        out[i] = plot_of(key);
    }
}
