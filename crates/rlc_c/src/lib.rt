// The C interface (include/rlc.h): each function is one public call of `store`, with the record as ten numbers in memory and the reply as a
// number. A record of another length gives 255, and nothing is touched.
#![tactic(auto)]

ghost use Rattle.std.specs.Prelude.{◌≡◌, ◌*◌, [], length};
ghost use Rattle.model.specs.Computed.Patterns.{folded_length, times_written, Folds};
ghost use Rattle.calls.specs.Call.{lent, lent_out, Meets};
ghost use Rattle.calls.specs.Search.{search_call};
ghost use Rattle.calls.specs.Route.{route_call};
ghost use Rattle.calls.specs.Query.{query_call};
ghost use Rattle.calls.specs.QueryTwo.{query_two_call};
ghost use Rattle.calls.specs.Change.{open_call, insert_call, remove_call};
ghost use Rattle.calls.specs.Card.{read_call, write_call};
ghost use Rattle.store.specs.Store.{numbers};
ghost use Rattle.records.specs.Record.{record_numbers};
ghost use Rattle.replies.specs.InC.{reply_unit, answered_in_c, two_answered_in_c, replied_in_c, routed_in_c};
ghost use Rattle.rlc_c.specs.Interface.{header_in, other_record, in_c, HandsBack, ChangesInC, wrote_in_c};

use model::{Edge, MOST_LABEL, Size};
use replies::UNIT;
use store::{Changed, Header};

// How many numbers a record has: vertices, longest pattern, and a total for each label.
const RECORD: usize = 2 + MOST_LABEL;

const OTHER_RECORD: u32 = 255;

// The record that ten words hold.
fn header_in(words: &[u32]) -> Header
    requires { length words.now ≡ record_numbers }
    ensures { numbers result ≡ header_in words.now }
{
    Header {
        size: Size {
            vertices: words[0],
            longest: words[1],
        },
        totals: [
            words[2], words[3], words[4], words[5], words[6], words[7], words[8], words[9],
        ],
    }
}

// Writes the record that a call hands back, and tells its answer as a number.
fn hand_back(words: &mut [u32], changed: Changed) -> u32
    requires { length words.old ≡ record_numbers }
    ensures { HandsBack changed result words.new }
{
    let header = changed.header;
    records::write_record(words, header.size, header.totals);
    replies::answer_number(changed.answer)
}

// Opening.
#[unsafe(no_mangle)]
pub extern "C" fn rlc_open(words: &mut [u32], edges: &mut [u32], index: &mut [u64]) -> u32
    ensures { ChangesInC words.old (lent edges.old index.old [])
        (open_call (header_in words.old) (lent edges.old index.old []))
        result words.new (lent edges.new index.new []) }
{
    if words.len() != RECORD {
        return OTHER_RECORD;
    }
    let changed = header_in(words).open(edges, index);
    hand_back(words, changed)
}

// Insertion (laying).
#[unsafe(no_mangle)]
pub extern "C" fn rlc_insert(
    words: &mut [u32],
    from: u32,
    label: u32,
    to: u32,
    edges: &mut [u32],
    index: &mut [u64],
    work: &mut [u64],
) -> u32
    ensures { ChangesInC words.old
        (lent edges.old index.old work.old)
        (insert_call (header_in words.old) from label to
        (lent edges.old index.old work.old))
        result words.new (lent edges.new index.new work.new) }
{
    if words.len() != RECORD {
        return OTHER_RECORD;
    }
    let changed = header_in(words).insert(Edge { from, label, to }, edges, index, work);
    hand_back(words, changed)
}

// Removal (lifting).
#[unsafe(no_mangle)]
pub extern "C" fn rlc_remove(
    words: &mut [u32],
    from: u32,
    label: u32,
    to: u32,
    edges: &mut [u32],
    index: &mut [u64],
    work: &mut [u64],
) -> u32
    ensures { ChangesInC words.old
        (lent edges.old index.old work.old)
        (remove_call (header_in words.old) from label to
        (lent edges.old index.old work.old))
        result words.new (lent edges.new index.new work.new) }
{
    if words.len() != RECORD {
        return OTHER_RECORD;
    }
    let changed = header_in(words).remove(Edge { from, label, to }, edges, index, work);
    hand_back(words, changed)
}

// Card reading. The record is written if the card is accepted.
#[unsafe(no_mangle)]
pub extern "C" fn rlc_read_card(
    words: &mut [u32],
    card: &[u8],
    edges: &mut [u32],
    index: &mut [u64],
    work: &mut [u64],
) -> u32
    ensures { ChangesInC words.old
        (lent edges.old index.old work.old)
        (read_call card.now
        (lent edges.old index.old work.old))
        result words.new (lent edges.new index.new work.new) }
{
    if words.len() != RECORD {
        return OTHER_RECORD;
    }
    match store::read_card(card, edges, index, work) {
        Ok(header) => hand_back(
            words,
            Changed {
                header,
                answer: Ok(()),
            },
        ),
        Err(refusal) => u32::from(refusal),
    }
}

// The query.
#[unsafe(no_mangle)]
pub extern "C" fn rlc_query(
    words: &[u32],
    start: u32,
    destination: u32,
    pattern: &[u8],
    edges: &[u32],
    index: &[u64],
    work: &mut [u64],
) -> u32
    ensures { Meets (in_c words.now answered_in_c other_record
        (lent edges.now index.now work.old)
        (query_call (header_in words.now) start destination pattern.now
        (lent edges.now index.now work.old)))
        result (lent edges.now index.now work.new) }
{
    if words.len() != RECORD {
        return OTHER_RECORD;
    }
    let header = header_in(words);
    let reply = store::query(header, start, destination, pattern, edges, index, work);
    replies::query_number(reply)
}

// Out by one pattern, home by another.
#[unsafe(no_mangle)]
pub extern "C" fn rlc_query_two(
    words: &[u32],
    start: u32,
    destination: u32,
    first: &[u8],
    second: &[u8],
    edges: &[u32],
    index: &[u64],
    work: &mut [u64],
) -> u64
    ensures { Meets (in_c words.now two_answered_in_c (other_record * reply_unit)
        (lent edges.now index.now work.old)
        (query_two_call (header_in words.now) start destination first.now second.now
        (lent edges.now index.now work.old)))
        result (lent edges.now index.now work.new) }
{
    if words.len() != RECORD {
        return OTHER_RECORD as u64 * UNIT;
    }
    let header = header_in(words);
    let middle = store::query_two(
        header,
        start,
        destination,
        first,
        second,
        edges,
        index,
        work,
    );
    replies::found_number(middle)
}

// The level search (plain check).
#[unsafe(no_mangle)]
pub extern "C" fn rlc_search(
    words: &[u32],
    start: u32,
    destination: u32,
    pattern: &[u8],
    level_limit: u32,
    edges: &[u32],
    work: &mut [u64],
) -> u64
    ensures { Meets (in_c words.now replied_in_c (other_record * reply_unit) (lent edges.now [] work.old)
        (search_call (header_in words.now).size start destination pattern.now level_limit
        (lent edges.now [] work.old)))
        result (lent edges.now [] work.new) }
{
    if words.len() != RECORD {
        return OTHER_RECORD as u64 * UNIT;
    }
    let header = header_in(words);
    let reply = store::level_search(
        header,
        start,
        destination,
        pattern,
        level_limit,
        edges,
        work,
    );
    replies::search_number(reply)
}

// The route.
#[unsafe(no_mangle)]
pub extern "C" fn rlc_route(
    words: &[u32],
    start: u32,
    destination: u32,
    pattern: &[u8],
    edges: &[u32],
    walk: &mut [u32],
    work: &mut [u64],
) -> u64
    ensures { Meets (in_c words.now routed_in_c (other_record * reply_unit) (lent_out edges.now work.old walk.old)
        (route_call (header_in words.now).size start destination pattern.now
        (lent_out edges.now work.old walk.old)))
        result (lent_out edges.now work.new walk.new) }
{
    if words.len() != RECORD {
        return OTHER_RECORD as u64 * UNIT;
    }
    let header = header_in(words);
    let reply = store::route(header, start, destination, pattern, edges, walk, work);
    replies::found_number(reply)
}

// Card writing.
#[unsafe(no_mangle)]
pub extern "C" fn rlc_write_card(words: &[u32], edges: &[u32], output: &mut [u8]) -> u64
    ensures { Meets (in_c words.now wrote_in_c (other_record * reply_unit)
        (lent_out edges.now [] output.old)
        (write_call (header_in words.now).size (lent_out edges.now [] output.old)))
        result (lent_out edges.now [] output.new) }
{
    if words.len() != RECORD {
        return OTHER_RECORD as u64 * UNIT;
    }
    let header = header_in(words);
    match store::write_card(header, edges, output) {
        Ok(length) => length as u64,
        Err(refusal) => replies::refused_number(refusal),
    }
}

// The length of a pattern's minimum repeat, which is the pattern's first labels, by the table.
#[unsafe(no_mangle)]
pub extern "C" fn rlc_minimum_repeat(pattern: &[u8]) -> u32
    ensures { Folds pattern.now result (times_written pattern.now) }
{
    store::minimum_repeat(pattern).length as u32
}

// The same, computed.
#[unsafe(no_mangle)]
pub extern "C" fn rlc_minimum_repeat_computed(pattern: &[u8]) -> u32
    ensures { Folds pattern.now result (times_written pattern.now) }
{
    store::minimum_repeat_computed(pattern).length as u32
}

// How many times a pattern's minimum repeat was written.
#[unsafe(no_mangle)]
pub extern "C" fn rlc_times_written(pattern: &[u8]) -> u32
    ensures { Folds pattern.now (folded_length pattern.now) result }
{
    store::minimum_repeat_computed(pattern).times as u32
}
