// Replies as numbers, as the C interface tells them. (A refusal's own number is `u32::from`, in `model`.)
#![tactic(auto)]

ghost use Rattle.std.specs.Prelude.{◌≡◌, ◌*◌};
ghost use Rattle.model.specs.Replies.{number_of, answered_of, answer_of, reply_of, routed_of, two_answered_of};
ghost use Rattle.replies.specs.InC.{reply_unit, answered_in_c, replied_in_c, routed_in_c, two_answered_in_c};

use model::{Refusal, SearchReply};

const YES: u32 = 100;

const SPENT: u32 = 101;

// A reply stands above 32 bits for the levels, the edges of a route, or a middle.
pub const UNIT: u64 = 1 << 32;

// A refusal above the 32 bits.
pub fn refused_number(refusal: Refusal) -> u64
    ensures { result ≡ number_of refusal * reply_unit }
{
    u32::from(refusal) as u64 * UNIT
}

// The answer to a change.
pub fn answer_number(answer: Result<(), Refusal>) -> u32
    ensures { result ≡ answer_of answer }
{
    match answer {
        Ok(()) => 0,
        Err(refusal) => u32::from(refusal),
    }
}

// The reply to a query.
pub fn query_number(reply: Result<bool, Refusal>) -> u32
    ensures { result ≡ answered_in_c (answered_of reply) }
{
    match reply {
        Ok(true) => YES,
        Ok(false) => 0,
        Err(refusal) => u32::from(refusal),
    }
}

// The reply to a route, with its number of edges, or to a query by two patterns, with the lowest middle.
pub fn found_number(reply: Result<Option<u32>, Refusal>) -> u64
    ensures route { result ≡ routed_in_c (routed_of reply) }
    ensures two { result ≡ two_answered_in_c (two_answered_of reply) }
{
    match reply {
        Ok(Some(found)) => YES as u64 * UNIT + found as u64,
        Ok(None) => 0,
        Err(refusal) => refused_number(refusal),
    }
}

// The reply to a level search.
pub fn search_number(reply: Result<SearchReply, Refusal>) -> u64
    ensures { result ≡ replied_in_c (reply_of reply) }
{
    match reply {
        Ok(SearchReply::Yes(levels)) => YES as u64 * UNIT + levels as u64,
        Ok(SearchReply::No(levels)) => levels as u64,
        Ok(SearchReply::Spent(levels)) => SPENT as u64 * UNIT + levels as u64,
        Err(refusal) => refused_number(refusal),
    }
}
