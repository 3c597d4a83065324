// A number of the queue: the place of the node before, the state, and the edge that led there.
ghost use Rattle.std.specs.Prelude.{◌≡◌, ◌≤◌, ◌<◌};
ghost use Rattle.model.specs.Computed.Levels.{most_states};
ghost use Rattle.route_search.specs.Work.{queued_number, before_of, state_of, edge_of};

pub const BEFORE_UNIT: u64 = 1 << 48;

pub const STATE_UNIT: u64 = 1 << 32;

// How many numbers the state's field has room for.
const STATES: u64 = BEFORE_UNIT / STATE_UNIT;

#[derive(Clone, Copy)]
pub struct Queued {
    pub before: usize,
    pub state: usize,
    pub edge: u32,
}

impl Queued {
    pub fn number(self) -> u64
        requires { (self.before ≤ most_states) × (self.state < most_states) }
        ensures { result ≡ queued_number self.before self.state self.edge }
    {
        self.before as u64 * BEFORE_UNIT + self.state as u64 * STATE_UNIT + u64::from(self.edge)
    }
}

// The fields of any number, whether it stands in the queue or not.
impl From<u64> for Queued {
    ghost from_gives = { λ x q. q ≡ record { before = before_of x; state = state_of x; edge = edge_of x } };

    fn from(x: u64) -> Queued {
        Queued {
            before: (x / BEFORE_UNIT) as usize,
            state: (x / STATE_UNIT % STATES) as usize,
            edge: (x % STATE_UNIT) as u32,
        }
    }
}
