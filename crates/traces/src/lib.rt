// Traces: what a program has seen that calls `store` again and again on one station (specs/), and that every trace is the ledger's (proofs/),
// from nothing but what `store` promises of each call. The functions here only call `store`: their contracts, proved from `store`'s own, say
// that each changing call is a step of a trace, whatever header was kept before an opening or a card reading.
#![tactic(auto)]

ghost use Rattle.std.specs.Prelude.{[]};
ghost use Rattle.model.specs.Lists.{Bytes};
ghost use Rattle.store.specs.declared.Header.{Header as Kept};
ghost use Rattle.demands.specs.Ledger.{opening, insertion, removal, card as card_of};
ghost use Rattle.traces.specs.Traces.{Step, changed_by};

use model::{Edge, Refusal};
use store::{Changed, Header};

pub fn open(header: Header, edges: &mut [u32], index: &mut [u64]) -> Changed
    ensures { (last : Kept) → Step (record { header = last; edges = edges.old; index = index.old })
        (opening header.size.vertices header.size.longest header.totals) [] result edges.new index.new }
{
    header.open(edges, index)
}

pub fn insert(
    header: Header,
    edge: Edge,
    edges: &mut [u32],
    index: &mut [u64],
    work: &mut [u64],
) -> Changed
    ensures { Step (record { header = header; edges = edges.old; index = index.old })
        (insertion edge.from edge.label edge.to) work.old result edges.new index.new }
{
    header.insert(edge, edges, index, work)
}

pub fn remove(
    header: Header,
    edge: Edge,
    edges: &mut [u32],
    index: &mut [u64],
    work: &mut [u64],
) -> Changed
    ensures { Step (record { header = header; edges = edges.old; index = index.old })
        (removal edge.from edge.label edge.to) work.old result edges.new index.new }
{
    header.remove(edge, edges, index, work)
}

pub fn read_card(
    card: &[u8],
    edges: &mut [u32],
    index: &mut [u64],
    work: &mut [u64],
) -> Result<Header, Refusal>
    ensures { (small : Bytes card.now) × ((last : Kept)
        → Step (record { header = last; edges = edges.old; index = index.old })
        (card_of card.now small) work.old (changed_by result) edges.new index.new) }
{
    store::read_card(card, edges, index, work)
}
