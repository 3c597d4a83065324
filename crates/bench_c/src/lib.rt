// The boundary for the benchmark only (bench/): leaves under C names, with what they require, which the benchmark meets. This is not the
// library's C interface.
#![tactic(auto)]

ghost use Rattle.std.specs.Prelude.{◌≡◌, length, replicate};
ghost use Rattle.model.specs.Limits.{most_label};
ghost use Rattle.calls.specs.Call.{lent};
ghost use Rattle.calls.specs.Query.{query_call};
ghost use Rattle.sort.specs.Order.{Distinct, Sortable, Sorts};
ghost use Rattle.order.specs.Counting.{Countable, Counts};
ghost use Rattle.build.specs.Build.{Buildable};
ghost use Rattle.bench_c.specs.Bench.{BuildsNumber, QueriesNumber};

use model::{MOST_LABEL, Size};

// The access order, as order::counted.
#[unsafe(no_mangle)]
pub extern "C" fn bench_order(vertices: u32, edges: &[u32], work: &mut [u64], order: &mut [u8])
    requires { Countable vertices edges.now work.old order.old }
    ensures { Counts vertices edges.now order.old order.new }
{
    order::counted(vertices, edges, work, order);
}

// The index, as build::build: how many entries it has, or 2^64 - 1 if they are too many.
#[unsafe(no_mangle)]
pub extern "C" fn bench_build(
    vertices: u32,
    longest: u32,
    edges: &[u32],
    order: &[u8],
    index: &mut [u64],
    work: &mut [u64],
) -> u64
    requires { Buildable vertices longest edges.now order.now (length index.old) work.old }
    ensures { BuildsNumber (record { vertices = vertices; longest = longest; edges = edges.now })
        order.now index.old work.old index.new work.new result }
{
    match build::build(Size { vertices, longest }, edges, order, index, work) {
        Some(n) => n as u64,
        None => u64::MAX,
    }
}

// The query, as query::query: 0 no, 1 yes, 2 refused. Every total is 1: no label is lacking, and the whole query is measured.
#[unsafe(no_mangle)]
pub extern "C" fn bench_query(
    vertices: u32,
    longest: u32,
    start: u32,
    destination: u32,
    pattern: &[u8],
    edges: &[u32],
    index: &[u64],
    work: &mut [u64],
) -> u32
    ensures { QueriesNumber (query_call (record { size = record { vertices = vertices; longest = longest }; totals = replicate most_label 1 }) start destination
        pattern.now (lent edges.now index.now work.old)) result work.new }
{
    let reply = query::query(
        Size { vertices, longest },
        [1; MOST_LABEL],
        start,
        destination,
        pattern,
        edges,
        index,
        work,
    );
    match reply {
        Ok(false) => 0,
        Ok(true) => 1,
        Err(_) => 2,
    }
}

// The sort, as sort::sort.
#[unsafe(no_mangle)]
pub extern "C" fn bench_sort(xs: &mut [u64], buffer: &mut [u64])
    requires { (length xs.old ≡ length buffer.old) × (Distinct xs.old × Sortable xs.old) }
    ensures { Sorts xs.old xs.new }
{
    sort::sort(xs, buffer);
}
