// Picking plots: the k of N plots that come first by a draw value.
#![tactic(auto)]

ghost use Rattle.std.specs.Prelude.{◌≡◌, ◌≤◌, length};
ghost use Rattle.words.specs.Checks.{outcome};
ghost use Rattle.plots.specs.Sorting.{sorted_keys};
ghost use Rattle.plots.specs.Picked.{is_radius, is_count, picked, pick_checks, pick_in, pick_outcome, lent_plots_in, lent_plots};

mod rank;

use group::{Element, Group, group_of, is_element};
use rank::{put_keys, put_plots};
use words::Refusal;

// Whether plots of this radius are mapped or cruised.
fn is_radius(radius: u32) -> bool
    ensures { result ≡ is_radius radius }
{
    radius == 10 || radius == 15
}

// Whether there are 1 to 4,096 plots in all, and 1 to all of them are to be picked.
fn is_count(total: u32, count: u32) -> bool
    ensures { result ≡ is_count total count }
{
    1 <= total && total <= 4096 && 1 <= count && count <= total
}

// What a request is refused by: 6 the draw value; 15 the radius; 16 the figures N and k; 3 the room.
fn check_pick(
    gr: Group,
    value: Element,
    radius: u32,
    total: u32,
    count: u32,
    room: usize,
) -> Result<(), Refusal>
    ensures { result ≡ outcome (pick_checks gr value radius total count room) tt }
{
    if !is_element(gr, value) {
        return Err(Refusal::NoElement);
    }
    if !is_radius(radius) {
        return Err(Refusal::BadRadius);
    }
    if !is_count(total, count) {
        return Err(Refusal::BadCount);
    }
    if room != count as usize {
        return Err(Refusal::BadLength);
    }
    Ok(())
}

// Writes the first plots, as many as there are places, by means of a list with a place for every plot's key.
// Internal: callers ensure at most 4,096 plots, and no more places than plots.
fn put_first(value: Element, radius: u8, keys: &mut [u64], out: &mut [u32])
    requires { (length keys.old ≤ 4096) × (length out.old ≤ length keys.old) }
    ensures keys_after { keys.new ≡ sorted_keys value.0 radius (length keys.old) }
    ensures out_after { out.new ≡ picked value.0 radius (length keys.old) (length out.old) }
{
    put_keys(keys, value, radius);
    keys.sort_unstable();
    put_plots(&keys[..out.len()], out);
}

// Writes the first plots of so many in all. Internal: callers ensure at most 4,096 plots, and no more places than plots.
fn put_picked(value: Element, radius: u8, total: usize, out: &mut [u32])
    requires { (total ≤ 4096) × (length out.old ≤ total) }
    ensures { out.new ≡ picked value.0 radius total (length out.old) }
{
    let mut keys = [0u64; 4096];
    put_first(value, radius, &mut keys[..total], out);
}

// Picks plots by an element of a group. Refused, with the list unchanged: 6, 15, 16 and 3, as check_pick.
#[tactic(auto, unfolding(crate::specs::Picked::pick_in, crate::specs::Picked::lent_plots_in))]
pub fn pick_plots_in(
    gr: Group,
    value: Element,
    radius: u32,
    total: u32,
    count: u32,
    out: &mut [u32],
) -> Result<(), Refusal>
    ensures result_value { result ≡ pick_in gr value radius total count (length out.old) }
    ensures out_after { out.new ≡ lent_plots_in gr value radius total count out.old }
{
    check_pick(gr, value, radius, total, count, out.len())?;
    put_picked(value, radius as u8, total as usize, out);
    Ok(())
}

// Picks plots by a draw value: so many (k) of the plots 1 to `total` (N) whose radius is given in metres. Their numbers are written into
// the lent list, first the plot that comes first. Refused, with the list unchanged: 3, 4, 20, 21 and 1 as group_of; 6 the draw value is no
// element; 15 the radius is not 10 or 15; 16 N is not 1 to 4,096 or k not 1 to N; 3 the list is not k long.
pub fn pick_plots(
    table: &[u8],
    number: u32,
    value: Element,
    radius: u32,
    total: u32,
    count: u32,
    out: &mut [u32],
) -> Result<(), Refusal>
    ensures result_value { result
        ≡ pick_outcome table.now number value radius total count (length out.old) }
    ensures out_after { out.new ≡ lent_plots table.now number value radius total count out.old }
{
    let gr = group_of(table, number)?;
    pick_plots_in(gr, value, radius, total, count, out)
}
