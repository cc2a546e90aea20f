// The table of runs: what it asks of all that is handed in, and what it leaves.
ghost use Rattle.std.specs.Prelude.{◌≡◌, ◌*◌, length, None, nat_le};
ghost use Rattle.faults.specs.Causes.{reply_of};
ghost use Rattle.runs.specs.Gaining.{gaining_event};
ghost use Rattle.runs.specs.Tables.{link_below, events_below, spans_at_most_one, early_fault, gain_fault, table_fault, Tabled, TableLaw};
ghost use Rattle.runs.specs.Links.{net_of, at};

use crate::net::{Departures, WeightedNet, clear};
use crate::{Link, TableFault};
use weights::Weight;

// A table has at most so many events and links.
const MAX_EVENTS: usize = 32;

const MAX_LINKS: usize = 128;

// Whether a link goes between events below n.
fn is_below(n: usize, link: &Link) -> bool
    ensures { result ≡ link_below n link.now }
{
    usize::from(link.from) < n && usize::from(link.to) < n
}

// Whether a weight spans at most 1.
fn is_light<W: Weight>(w: &W) -> bool
    ensures { result ≡ nat_le (W.kind.span (W.meaning w.now)) 1 }
{
    w.span() <= 1
}

// Whether every link goes between events below n.
fn events_below(n: usize, links: &[Link]) -> bool
    ensures { result ≡ events_below n links.now }
{
    links.iter().all(|link| is_below(n, link))
}

// Whether every weight spans at most 1.
fn spans_at_most_one<W: Weight>(weights: &[W]) -> bool
    ensures { result ≡ spans_at_most_one W.kind W.meaning weights.now }
{
    weights.iter().all(is_light)
}

// The first cause of a refusal before any run is weighed.
fn check_inputs<W: Weight>(
    n: usize,
    links: &[Link],
    weights: &[W],
    cells: &[W],
    spare: &[W],
) -> Result<(), TableFault>
    ensures { result ≡ reply_of (early_fault W.kind W.meaning n links.now weights.now cells.now spare.now None) }
{
    if !(1..=MAX_EVENTS).contains(&n) {
        return Err(TableFault::EventCount);
    }
    if !events_below(n, links) {
        return Err(TableFault::Event);
    }
    if links.len() > MAX_LINKS
        || links.len() != weights.len()
        || cells.len() != n * n
        || spare.len() != n
    {
        return Err(TableFault::Length);
    }
    if !spans_at_most_one(weights) {
        return Err(TableFault::Span);
    }
    Ok(())
}

// The table of a net, or the first event from which a closed run gains.
fn fill_table<W: Weight>(
    net: &WeightedNet<'_, W>,
    cells: &mut [W],
    spare: &mut [W],
) -> Result<(), TableFault>
    requires square { length cells.old ≡ net.now.events * net.now.events }
    requires side { length spare.old ≡ net.now.events }
    ensures { Tabled W.kind W.meaning net.now.events net.now.links.now net.now.weights.now cells.old spare.old (gain_fault (gaining_event W.kind (net_of net.now.links.now) (at W.kind W.meaning net.now.weights.now) net.now.events)) cells.new spare.new result }
{
    let gain = net.fill_rows(cells, spare);
    clear(spare);
    match gain {
        None => Ok(()),
        Some(event) => {
            clear(cells);
            Err(TableFault::Gain(event))
        }
    }
}

// For each two events the choice over the weights of all runs of fewer than `n` links between them: the least weight that no
// run between them exceeds.
pub fn table_of_runs<W: Weight>(
    n: usize,
    links: &[Link],
    weights: &[W],
    cells: &mut [W],
    spare: &mut [W],
) -> Result<(), TableFault>
    ensures table { Tabled W.kind W.meaning n links.now weights.now cells.old spare.old (table_fault W.kind W.meaning n links.now weights.now cells.old spare.old) cells.new spare.new result }
    ensures law { TableLaw W.kind W.meaning n links.now weights.now cells.old spare.old cells.new result }
{
    check_inputs(n, links, weights, cells, spare)?;
    let net = WeightedNet {
        events: n,
        links,
        weights,
        departures: Departures::of(links),
    };
    fill_table(&net, cells, spare)
}
