// The model: what documents 01 and 02 say, as definitions (specs/) and laws (proofs/). The code is the numbers that they fix, the types that calls
// and replies are made of, and how edges, entries and refusals are numbers.
#![tactic(auto)]

ghost use Rattle.std.specs.Prelude.{◌≡◌, ◌/◌, ◌<◌};
ghost use Rattle.model.specs.Limits.{most_vertices, from_unit, label_unit, hub_unit};
ghost use Rattle.model.specs.Edges.{edge_number, from_of, label_of, to_of};
ghost use Rattle.model.specs.Entries.{entry_of};
ghost use Rattle.model.specs.Computed.Query.{side_of, owner_of, hub_of, code_of};
ghost use Rattle.model.specs.Replies.{number_of};

// The numbers, each named once; specs/Limits.antt has them under the same names. A crate that wants one in another width takes it from here.

// Places are 1 to 256, legs at most 1,024, colours 1 to 8, the longest pattern k 1 to 4.
pub const MOST_VERTICES: usize = 256;

pub const MOST_EDGES: usize = 1024;

pub const MOST_LABEL: usize = 8;

pub const MOST_LONGEST: usize = 4;

// "from × 4,096 + colour × 256 + to"
pub const FROM_UNIT: u32 = 4096;

pub const LABEL_UNIT: u32 = 256;

// How many numbers the label's field of an edge number has room for.
pub const LABELS: u32 = FROM_UNIT / LABEL_UNIT;

// "Code reads the colours as hexadecimal digits"
pub const DIGIT_UNIT: u64 = 16;

// "side × 2^32 + owner × 2^24 + hub × 2^16 + code": a code has at most four digits.
pub const CODE_DIGITS: usize = 4;

pub const SIDE_UNIT: u64 = 1 << 32;

pub const OWNER_UNIT: u64 = 1 << 24;

pub const HUB_UNIT: u64 = 1 << 16;

// Work memory has at least 4,096 numbers.
pub const LEAST_WORK: usize = 4096;

// "An allowance of 1,025 always gives yes or no": one level more than there are states.
pub const ENOUGH_LEVELS: usize = MOST_LONGEST * MOST_VERTICES + 1;

// The numbers that an owner's field and a hub's field hold.
pub const VERTICES: u64 = MOST_VERTICES as u64;

// A card's bytes before its edges (mark, version, places less one, k, leg count), and those of an edge behind them (from, colour, to).
pub const HEAD_BYTES: usize = 9;

pub const TRIPLE_BYTES: usize = 3;

// Document 02, One: the table has "each of the 4,680 patterns of one to four colours".
pub const TABLE_LONGEST: usize = 4;

pub const TABLE_SIZE: usize = 4680;

// Why a call is turned down: a case for each number of document 01's table, and of document 02 (specs/Replies.antt has the numbers).
#[derive(Clone, Copy)]
pub enum Refusal {
    // the record
    Vertices,
    Longest,
    // lent memory
    EdgeMemory,
    WorkMemory,
    // a named edge
    EdgeEnd,
    EdgeLabel,
    EdgePresent,
    EdgeAbsent,
    EdgeSlots,
    // a query
    QueryEnd,
    QueryPattern,
    // index memory
    IndexMemory,
    IndexSlots,
    // a card
    CardMark,
    CardVersion,
    CardEdges,
    CardOutput,
    // a route
    WalkMemory,
}

// What a level search (plain check) replies, with the number of levels built.
#[derive(Clone, Copy)]
pub enum SearchReply {
    Yes(u32),
    No(u32),
    Spent(u32),
}

// The documents' number of a refusal.
impl From<Refusal> for u32 {
    ghost from_gives = { λ r n. n ≡ number_of r };

    fn from(refusal: Refusal) -> u32 {
        match refusal {
            Refusal::Vertices => 1,
            Refusal::Longest => 2,
            Refusal::EdgeMemory => 3,
            Refusal::WorkMemory => 4,
            Refusal::EdgeEnd => 5,
            Refusal::EdgeLabel => 6,
            Refusal::EdgePresent => 7,
            Refusal::EdgeAbsent => 8,
            Refusal::EdgeSlots => 9,
            Refusal::QueryEnd => 10,
            Refusal::QueryPattern => 11,
            Refusal::IndexMemory => 12,
            Refusal::IndexSlots => 13,
            Refusal::CardMark => 14,
            Refusal::CardVersion => 15,
            Refusal::CardEdges => 16,
            Refusal::CardOutput => 17,
            Refusal::WalkMemory => 18,
        }
    }
}

// The two numbers of the record that checks look at: places and k.
#[derive(Clone, Copy)]
pub struct Size {
    pub vertices: u32,
    pub longest: u32,
}

// An edge (leg) as it is named.
#[derive(Clone, Copy)]
pub struct Edge {
    pub from: u32,
    pub label: u32,
    pub to: u32,
}

impl Edge {
    // "from × 4,096 + colour × 256 + to"
    pub fn number(self) -> u32
        requires { (self.from < most_vertices) × ((self.label < from_unit / label_unit) × (self.to < label_unit)) }
        ensures { result ≡ edge_number self.from self.label self.to }
    {
        self.from * FROM_UNIT + self.label * LABEL_UNIT + self.to
    }
}

// The fields of any number, whether it is that of an edge or not.
impl From<u32> for Edge {
    ghost from_gives = { λ x e. e ≡ record { from = from_of x; label = label_of x; to = to_of x } };

    fn from(x: u32) -> Edge {
        Edge {
            from: x / FROM_UNIT,
            label: x / LABEL_UNIT % LABELS,
            to: x % LABEL_UNIT,
        }
    }
}

// An entry of the index: the side 0 for out and 1 for in, its owner and hub, and the code of its pattern.
#[derive(Clone, Copy)]
pub struct Entry {
    pub side: u64,
    pub owner: usize,
    pub hub: usize,
    pub code: u64,
}

impl Entry {
    // "side × 2^32 + owner × 2^24 + hub × 2^16 + code"
    pub fn number(self) -> u64
        requires { (self.side < 2) × ((self.owner < most_vertices) × ((self.hub < most_vertices) × (self.code < hub_unit))) }
        ensures { result ≡ entry_of self.side self.owner self.hub self.code }
    {
        self.side * SIDE_UNIT
            + self.owner as u64 * OWNER_UNIT
            + self.hub as u64 * HUB_UNIT
            + self.code
    }
}

// The fields of any number, whether it is that of an entry or not.
impl From<u64> for Entry {
    ghost from_gives = { λ x e. e ≡ record { side = side_of x; owner = owner_of x; hub = hub_of x; code = code_of x } };

    fn from(x: u64) -> Entry {
        Entry {
            side: x / SIDE_UNIT,
            owner: (x / OWNER_UNIT % VERTICES) as usize,
            hub: (x / HUB_UNIT % VERTICES) as usize,
            code: x % HUB_UNIT,
        }
    }
}
