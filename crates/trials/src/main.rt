// The unstarred trial runs of document 01 and document 02's of a pattern keyed twice, of routes, of totals and of two patterns, through the public
// calls: a line for each, with 0 if it is accepted or for a no, 100 for a yes, or the number of the refusal; of a route the number of its legs and a
// line for each leg; of a record its places, and a line for k and for each total; of two patterns a line for the place between.
#![tactic(auto)]

use model::{Edge, MOST_LABEL, Refusal, Size};
use std::io;
use store::Header;

// "Layout A is the card above."
const CARD_A: [u8; 18] = [80, 82, 67, 0, 1, 2, 2, 0, 3, 0, 1, 1, 1, 1, 2, 1, 2, 0];

// A record that no call has handed back yet.
fn header(vertices: u32, longest: u32) -> Header {
    Header {
        size: Size { vertices, longest },
        totals: [0; MOST_LABEL],
    }
}

fn say(rt: &impl Print, text: &str, number: u32) -> io::Result<()> {
    println!(rt; "{text}{number}")
}

fn say_answer(rt: &impl Print, text: &str, answer: Result<(), Refusal>) -> io::Result<()> {
    say(rt, text, replies::answer_number(answer))
}

fn say_reply(rt: &impl Print, text: &str, reply: Result<bool, Refusal>) -> io::Result<()> {
    say(rt, text, replies::query_number(reply))
}

// Reads card A into so many leg and index slots.
fn read_a(edges: &mut [u32], index: &mut [u64]) -> Result<Header, Refusal> {
    let mut work = [0u64; 4104];
    let card = CARD_A;
    store::read_card(&card, edges, index, &mut work)
}

fn say_card(rt: &impl Print, text: &str, read: Result<Header, Refusal>) -> io::Result<()> {
    match read {
        Ok(_) => say(rt, text, 0),
        Err(refusal) => say(rt, text, u32::from(refusal)),
    }
}

// Layout A from its card: the record handed back, with leg and index memory filled.
fn layout_a(edges: &mut [u32], index: &mut [u64]) -> Header {
    read_a(edges, index).unwrap_or(header(0, 0))
}

fn open(vertices: u32, longest: u32) -> Result<(), Refusal> {
    let mut edges = [0u32; 1];
    let mut index = [0u64; 1];
    let changed = header(vertices, longest).open(&mut edges, &mut index);
    changed.answer
}

// A question on layout A.
fn ask_a(start: u32, destination: u32, pattern: &[u8]) -> Result<bool, Refusal> {
    let mut edges = [0u32; 3];
    let mut index = [0u64; 5];
    let mut work = [0u64; 4096];
    let header = layout_a(&mut edges, &mut index);
    store::query(
        header,
        start,
        destination,
        pattern,
        &edges,
        &index,
        &mut work,
    )
}

// The question 0 to 1 by label 3 on layout A, where the record gives label 3 that total. Index memory is damaged: an entry stands behind a zero.
fn ask_damaged_a(total: u32) -> Result<bool, Refusal> {
    let mut edges = [0u32; 3];
    let mut index = [0u64; 5];
    let mut work = [0u64; 4096];
    let mut told = layout_a(&mut edges, &mut index);
    told.totals[2] = total;
    index[0] = 0;
    store::query(told, 0, 1, &[3], &edges, &index, &mut work)
}

// A question, 0 to 1, with the single leg 0-1-1.
fn ask_one_leg(pattern: &[u8]) -> Result<bool, Refusal> {
    let mut edges = [0u32; 1];
    let mut index = [0u64; 1];
    let mut work = [0u64; 4097];
    let leg = Edge {
        from: 0,
        label: 1,
        to: 1,
    };
    let laid = header(2, 2).insert(leg, &mut edges, &mut index, &mut work);
    store::query(laid.header, 0, 1, pattern, &edges, &index, &mut work)
}

// A route on layout A: the number of its legs.
fn light_a(
    start: u32,
    destination: u32,
    pattern: &[u8],
    walk: &mut [u32],
) -> Result<Option<u32>, Refusal> {
    let mut edges = [0u32; 3];
    let mut index = [0u64; 5];
    let mut work = [0u64; 4096];
    let header = layout_a(&mut edges, &mut index);
    store::route(header, start, destination, pattern, &edges, walk, &mut work)
}

fn lay_in_a(edge: Edge) -> Result<(), Refusal> {
    let mut edges = [0u32; 4];
    let mut index = [0u64; 8];
    let mut work = [0u64; 4104];
    let header = layout_a(&mut edges, &mut index);
    let changed = header.insert(edge, &mut edges, &mut index, &mut work);
    changed.answer
}

// A route: the number of its legs, 0 for none, or the number of the refusal.
fn say_route(rt: &impl Print, text: &str, reply: Result<Option<u32>, Refusal>) -> io::Result<()> {
    match reply {
        Ok(Some(legs)) => say(rt, text, legs),
        Ok(None) => say(rt, text, 0),
        Err(refusal) => say(rt, text, u32::from(refusal)),
    }
}

// The routes of document 02, Three.
fn say_routes(rt: &impl Print) -> io::Result<()> {
    let mut walk = [0u32; 2];
    say_route(
        rt,
        "route in A, 0 to 0 by 1 2: ",
        light_a(0, 0, &[1, 2], &mut walk),
    )?;
    say(rt, "  leg ", walk[0])?;
    say(rt, "  leg ", walk[1])?;
    say_route(
        rt,
        "route in A, 0 to 2 by 1: ",
        light_a(0, 2, &[1], &mut walk),
    )?;
    say(rt, "  leg ", walk[0])?;
    say(rt, "  leg ", walk[1])?;
    say_route(
        rt,
        "route in A, 2 to 0 by 1: ",
        light_a(2, 0, &[1], &mut walk),
    )?;
    let mut short = [0u32; 1];
    say_route(
        rt,
        "route in A, 0 to 0 by 1 2, one slot: ",
        light_a(0, 0, &[1, 2], &mut short),
    )
}

// A question by two patterns: 100 and a line for the place between, or 0 for a no, or the number of the refusal.
fn say_two(rt: &impl Print, text: &str, reply: Result<Option<u32>, Refusal>) -> io::Result<()> {
    match reply {
        Ok(Some(middle)) => {
            say(rt, text, 100)?;
            say(rt, "  between ", middle)
        }
        Ok(None) => say(rt, text, 0),
        Err(refusal) => say(rt, text, u32::from(refusal)),
    }
}

// Out by one pattern and home by another, on layout A.
fn two_in_a(
    start: u32,
    destination: u32,
    first: &[u8],
    second: &[u8],
) -> Result<Option<u32>, Refusal> {
    let mut edges = [0u32; 3];
    let mut index = [0u64; 5];
    let mut work = [0u64; 4096];
    let header = layout_a(&mut edges, &mut index);
    store::query_two(
        header,
        start,
        destination,
        first,
        second,
        &edges,
        &index,
        &mut work,
    )
}

// The same from 0 to 3 with the legs 0-1-1, 0-1-2, 1-2-3 and 2-2-3: both 1 and 2 lie between.
fn two_by_either(first: &[u8]) -> Result<Option<u32>, Refusal> {
    let mut edges = [0u32; 4];
    let mut index = [0u64; 8];
    let mut work = [0u64; 4104];
    let mut header = header(4, 2);
    for (from, label, to) in [(0, 1, 2), (0, 1, 1), (2, 2, 3), (1, 2, 3)] {
        let leg = Edge { from, label, to };
        let laid = header.insert(leg, &mut edges, &mut index, &mut work);
        header = laid.header;
    }
    store::query_two(header, 0, 3, first, &[2], &edges, &index, &mut work)
}

// The questions of document 02, Five.
fn say_two_patterns(rt: &impl Print) -> io::Result<()> {
    say_two(rt, "A, 0 to 0 by 1, then 2: ", two_in_a(0, 0, &[1], &[2]))?;
    say_two(
        rt,
        "A, 0 to 2 by 1 2, then 1: ",
        two_in_a(0, 2, &[1, 2], &[1]),
    )?;
    say_two(rt, "A, 0 to 0 by 1, then 1: ", two_in_a(0, 0, &[1], &[1]))?;
    say_two(rt, "two ways, 0 to 3 by 1, then 2: ", two_by_either(&[1]))?;
    say_two(
        rt,
        "two ways, 0 to 3 by 1 1, then 2: ",
        two_by_either(&[1, 1]),
    )
}

// The record of layout A: "The record gains eight totals" (document 02, Four).
fn say_record_a(rt: &impl Print) -> io::Result<()> {
    let mut edges = [0u32; 3];
    let mut index = [0u64; 5];
    let header = layout_a(&mut edges, &mut index);
    say(rt, "record of A, places: ", header.size.vertices)?;
    say(rt, "  k ", header.size.longest)?;
    for (i, total) in header.totals.iter().enumerate() {
        println!(rt; "  label {} {total}", i + 1)?;
    }
    Ok(())
}

// Card A into as many index slots as it needs, and one fewer.
fn say_cards(rt: &impl Print) -> io::Result<()> {
    let mut edges = [0u32; 3];
    let mut five = [0u64; 5];
    let mut four = [0u64; 4];
    say_card(rt, "card A, 5 index slots: ", read_a(&mut edges, &mut five))?;
    say_card(rt, "card A, 4 index slots: ", read_a(&mut edges, &mut four))
}

// The most places and the longest pattern, and one more.
fn say_openings(rt: &impl Print) -> io::Result<()> {
    say_answer(rt, "256 places: ", open(256, 4))?;
    say_answer(rt, "257 places: ", open(257, 4))?;
    say_answer(rt, "k 4: ", open(1, 4))?;
    say_answer(rt, "k 5: ", open(1, 5))
}

// Questions and a leg laid again on layout A, and a pattern keyed twice on a single leg.
fn say_questions(rt: &impl Print) -> io::Result<()> {
    say_reply(rt, "A, 0 to 2 by 1: ", ask_a(0, 2, &[1]))?;
    say_reply(rt, "A, 0 to 3 by 1: ", ask_a(0, 3, &[1]))?;
    say_reply(rt, "A, 0 to 0 by 1 2 1: ", ask_a(0, 0, &[1, 2, 1]))?;
    let leg = Edge {
        from: 0,
        label: 1,
        to: 1,
    };
    say_answer(rt, "laying 0-1-1 in A: ", lay_in_a(leg))?;
    say_reply(rt, "leg 0-1-1, 0 to 1 by 1 1: ", ask_one_leg(&[1, 1]))?;
    say_reply(rt, "leg 0-1-1, 0 to 1 by 1: ", ask_one_leg(&[1]))
}

// Questions with a colour that layout A lacks.
fn say_lacking(rt: &impl Print) -> io::Result<()> {
    say_reply(rt, "A, 0 to 1 by 3: ", ask_a(0, 1, &[3]))?;
    say_reply(rt, "A, 0 to 1 by 3, damaged index: ", ask_damaged_a(0))?;
    say_reply(
        rt,
        "A, 0 to 1 by 3, damaged index, total 1 told: ",
        ask_damaged_a(1),
    )
}

fn main(rt: HostRuntime) -> io::Result<()> {
    say_cards(&rt)?;
    say_openings(&rt)?;
    say_questions(&rt)?;
    say_routes(&rt)?;
    say_record_a(&rt)?;
    say_lacking(&rt)?;
    say_two_patterns(&rt)
}
