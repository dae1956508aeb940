// What is done with a draw value: plots are picked, and the chain of seasons is extended and judged. `out` is kept where something is
// refused.
ghost use Rattle.std.specs.Prelude.{◌≡◌, length};
ghost use Rattle.plots.specs.Picked.{pick_outcome, lent_plots};
ghost use Rattle.chain.specs.Chain.{chain_outcome, extend_outcome, lent_link};
ghost use Rattle.tadlovimpe.specs.Figures.{element_of, number_of};

use crate::answers::number_of;
use group::Element;

// plots::pick_plots
#[unsafe(no_mangle)]
pub extern "C" fn tadlovimpe_pick_plots(
    table: &[u8],
    group: u32,
    value: u32,
    radius: u32,
    total: u32,
    count: u32,
    out: &mut [u32],
) -> u32
    ensures value { result ≡ number_of (pick_outcome table.now group (element_of value) radius total count (length out.old)) }
    ensures out_after { out.new ≡ lent_plots table.now group (element_of value) radius total count out.old }
{
    number_of(plots::pick_plots(table, group, Element(value), radius, total, count, out))
}

// chain::judge_chain
#[unsafe(no_mangle)]
pub extern "C" fn tadlovimpe_judge_chain(table: &[u8], chain: &[u8]) -> u32
    ensures { result ≡ number_of (chain_outcome table.now chain.now) }
{
    number_of(chain::judge_chain(table, chain))
}

// chain::extend_chain
#[unsafe(no_mangle)]
pub extern "C" fn tadlovimpe_extend_chain(
    table: &[u8],
    chain: &[u8],
    group: u32,
    value: u32,
    out: &mut [u8],
) -> u32
    ensures value { result ≡ number_of (extend_outcome table.now chain.now group value (length out.old)) }
    ensures out_after { out.new ≡ lent_link table.now chain.now group value out.old }
{
    number_of(chain::extend_chain(table, chain, group, Element(value), out))
}
