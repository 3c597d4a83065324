// From staged entries to index memory: owners and hubs put back from ranks to vertices, rising order, and zeros behind.
#![tactic(auto)]

ghost use Rattle.std.specs.Prelude.{◌≡◌, map, ◌<◌, length};
ghost use Rattle.model.specs.Computed.Query.{side_of, owner_of, hub_of};
ghost use Rattle.model.specs.Build.Renumber.{translate};
ghost use Rattle.output.specs.Output.{Translatable, IndexWritable, WritesIndex};

use model::Entry;

// One entry with its owner and hub put back.
fn put_one(order: &[u8], x: u64) -> u64
    requires { (side_of x < 2) × ((owner_of x < length order.now) × (hub_of x < length order.now)) }
    ensures { result ≡ translate order.now x }
{
    let ranked = Entry::from(x);
    let entry = Entry {
        owner: order[ranked.owner] as usize,
        hub: order[ranked.hub] as usize,
        ..ranked
    };
    entry.number()
}

// Writes the staged entries into `to`, with owner and hub put back: vertex order[r] for rank r.
fn put_back(order: &[u8], staged: &[u64], to: &mut [u64])
    requires { Translatable order.now staged.now × (length staged.now ≡ length to.old) }
    ensures { to.new ≡ map (translate order.now) staged.now }
{
    for i in 0..staged.len() {
        to[i] = put_one(order, staged[i]);
    }
}

// Writes the staged entries, put back, to index memory in rising order, and zeros behind them. The stage holds anything afterwards.
pub fn write(order: &[u8], staged: &mut [u64], index: &mut [u64])
    requires { IndexWritable order.now staged.old index.old }
    ensures { WritesIndex (map (translate order.now) staged.old) index.old index.new }
{
    let n = staged.len();
    put_back(order, staged, &mut index[..n]);
    sort::sort(&mut index[..n], staged);
    index[n..].fill(0);
}
