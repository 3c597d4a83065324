// The store as firmware sees it: every call of documents 01 and 02, for all inputs. Opening, insertion (laying) and removal (lifting) are operations
// of the header (record): each takes it and hands it back with the answer, and if it is accepted with totals counted anew.
#![tactic(auto)]

ghost use Rattle.std.specs.Prelude.{◌≡◌, [], ◌≤◌, length};
ghost use Rattle.model.specs.Limits.{most_edges};
ghost use Rattle.model.specs.Replies.{answered_of, answer_of, reply_of, routed_of, two_answered_of};
ghost use Rattle.model.specs.Computed.Patterns.{Folds};
ghost use Rattle.calls.specs.Call.{lent, lent_out, Meets};
ghost use Rattle.calls.specs.Search.{search_call};
ghost use Rattle.calls.specs.Route.{route_call};
ghost use Rattle.calls.specs.Query.{query_call};
ghost use Rattle.calls.specs.QueryTwo.{query_two_call};
ghost use Rattle.calls.specs.Change.{returning, open_call, insert_call, remove_call};
ghost use Rattle.calls.specs.Card.{read_call, write_call};
ghost use Rattle.store.specs.Store.{numbers, returned, read_of, wrote_of};

use model::{Edge, HEAD_BYTES, MOST_LABEL, Refusal, SearchReply, Size, TRIPLE_BYTES};
use patterns::Folded;

// "The record holds the number of places and k", and "gains eight totals, the legs of each colour" (document 02, Four): of labels 1 to 8. Only the
// query looks at totals.
#[derive(Clone, Copy)]
pub struct Header {
    pub size: Size,
    pub totals: [u32; MOST_LABEL],
}

// The header that a call hands back, and its answer.
#[derive(Clone, Copy)]
pub struct Changed {
    pub header: Header,
    pub answer: Result<(), Refusal>,
}

impl Header {
    // The header with the answer of a change: if it is accepted, with the totals of the edges that then stand.
    fn hand_back(self, answer: Result<(), Refusal>, edges: &[u32]) -> Changed
        requires { answer_of answer ≡ 0 → length edges.now ≤ most_edges }
        ensures { returned result ≡ returning (answer_of answer) (numbers self) self.size edges.now }
    {
        match answer {
            Ok(()) => Changed {
                header: Header {
                    size: self.size,
                    totals: totals::totals(edges),
                },
                answer,
            },
            Err(_) => Changed {
                header: self,
                answer,
            },
        }
    }

    // Opening. It is lent no work memory.
    pub fn open(self, edges: &mut [u32], index: &mut [u64]) -> Changed
        ensures { Meets (open_call (numbers self) (lent edges.old index.old []))
            (returned result) (lent edges.new index.new []) }
    {
        let answer = changes::open(self.size, edges, index);
        self.hand_back(answer, edges)
    }

    // Insertion (laying).
    pub fn insert(
        self,
        edge: Edge,
        edges: &mut [u32],
        index: &mut [u64],
        work: &mut [u64],
    ) -> Changed
        ensures { Meets (insert_call (numbers self) edge.from edge.label edge.to (lent edges.old index.old work.old))
            (returned result) (lent edges.new index.new work.new) }
    {
        let answer = changes::insert(self.size, edge, edges, index, work);
        self.hand_back(answer, edges)
    }

    // Removal (lifting).
    pub fn remove(
        self,
        edge: Edge,
        edges: &mut [u32],
        index: &mut [u64],
        work: &mut [u64],
    ) -> Changed
        ensures { Meets (remove_call (numbers self) edge.from edge.label edge.to (lent edges.old index.old work.old))
            (returned result) (lent edges.new index.new work.new) }
    {
        let answer = changes::remove(self.size, edge, edges, index, work);
        self.hand_back(answer, edges)
    }
}

// Reads a layout card, and hands back its header.
pub fn read_card(
    card: &[u8],
    edges: &mut [u32],
    index: &mut [u64],
    work: &mut [u64],
) -> Result<Header, Refusal>
    ensures { Meets (read_call card.now (lent edges.old index.old work.old))
        (read_of result) (lent edges.new index.new work.new) }
{
    let size = changes::read(card, edges, index, work)?;
    let totals = totals::totals(edges);
    Ok(Header { size, totals })
}

// Writes the layout card to the front of the output, and returns its length.
pub fn write_card(header: Header, edges: &[u32], output: &mut [u8]) -> Result<usize, Refusal>
    ensures { Meets (write_call header.size (lent_out edges.now [] output.old))
        (wrote_of result) (lent_out edges.now [] output.new) }
{
    let n = card_writing::check_write(header.size, edges, output)?;
    card_writing::write(header.size, &edges[..n], output);
    Ok(HEAD_BYTES + TRIPLE_BYTES * n)
}

// The query (question). A label whose total is 0 is a no at once (document 02, Four). Edge and work memory are looked at only if the pattern repeats
// itself (Two).
pub fn query(
    header: Header,
    start: u32,
    destination: u32,
    pattern: &[u8],
    edges: &[u32],
    index: &[u64],
    work: &mut [u64],
) -> Result<bool, Refusal>
    ensures { Meets (query_call (numbers header) start destination pattern.now
        (lent edges.now index.now work.old))
        (answered_of result) (lent edges.now index.now work.new) }
{
    query::query(
        header.size,
        header.totals,
        start,
        destination,
        pattern,
        edges,
        index,
        work,
    )
}

// Out by one pattern, home by another (document 02, Five). Edge and work memory are looked at only if one of them repeats itself.
pub fn query_two(
    header: Header,
    start: u32,
    destination: u32,
    first: &[u8],
    second: &[u8],
    edges: &[u32],
    index: &[u64],
    work: &mut [u64],
) -> Result<Option<u32>, Refusal>
    ensures { Meets (query_two_call (numbers header) start destination first.now second.now
        (lent edges.now index.now work.old))
        (two_answered_of result) (lent edges.now index.now work.new) }
{
    query_two::query_two(
        header.size,
        header.totals,
        start,
        destination,
        first,
        second,
        edges,
        index,
        work,
    )
}

// The level search (plain check).
pub fn level_search(
    header: Header,
    start: u32,
    destination: u32,
    pattern: &[u8],
    level_limit: u32,
    edges: &[u32],
    work: &mut [u64],
) -> Result<SearchReply, Refusal>
    ensures { Meets (search_call header.size start destination pattern.now level_limit
        (lent edges.now [] work.old)) (reply_of result) (lent edges.now [] work.new) }
{
    level_search::search(
        header.size,
        start,
        destination,
        pattern,
        level_limit,
        edges,
        work,
    )
}

// The route (document 02, Three): its edges go to the front of walk memory.
pub fn route(
    header: Header,
    start: u32,
    destination: u32,
    pattern: &[u8],
    edges: &[u32],
    walk: &mut [u32],
    work: &mut [u64],
) -> Result<Option<u32>, Refusal>
    ensures { Meets (route_call header.size start destination pattern.now
        (lent_out edges.now work.old walk.old))
        (routed_of result) (lent_out edges.now work.new walk.new) }
{
    route::route(header.size, start, destination, pattern, edges, walk, work)
}

// The length of a pattern's minimum repeat, which is the pattern's first labels, looked up in the table (document 02, One), and how many times it
// was written (Two).
pub fn minimum_repeat(pattern: &[u8]) -> Folded
    ensures { Folds pattern.now result.length result.times }
{
    lookup::minimum_repeat(pattern)
}

// The same, by the recursion that tries one length after another.
pub fn minimum_repeat_computed(pattern: &[u8]) -> Folded
    ensures { Folds pattern.now result.length result.times }
{
    patterns::minimum_repeat(pattern)
}
