// Table II of paper 004 out of `build`: the graph of Fig. 2 there with the paper's own access order, v1 v3 v2 v4 v5 v6, and one line for
// each entry in slot order.
#![tactic(auto)]

ghost use Rattle.std.specs.Prelude.{◌≡◌};
ghost use Rattle.model.specs.Computed.Lists.{spread};
ghost use Rattle.worked_examples.specs.Trials.{table_ii};
ghost use Rattle.printing.specs.Lines.{entry_line};

use model::Size;
use printing::Text;
use std::io;

const ROOM: usize = 1024;

// Builds the index and writes its lines, which are those of Table II.
fn table() -> Text<ROOM>
    ensures { result ≡ spread entry_line table_ii }
{
    // Fig. 2: from × 4,096 + label × 256 + to, vertex v + 1 there being v here.
    let edges = [
        257u32, 514, 4356, 4612, 8449, 8453, 8704, 8707, 12544, 13061, 16640,
    ];
    let order = [0u8, 2, 1, 3, 4, 5];
    let mut index = [0u64; 32];
    let mut work = [0u64; 4128];
    let size = Size {
        vertices: 6,
        longest: 2,
    };
    let mut text = Text::new();
    if let Some(n) = build::build(size, &edges, &order, &mut index, &mut work) {
        listing_lines::put_entries(&mut text, &index[..n]);
    }
    text
}

fn main(rt: HostRuntime) -> io::Result<()> {
    rt.stdout().write_all(table().as_bytes())
}
