// The closure of the step rows: afterwards row a has every vertex that one step or more led to from a.
#![tactic(auto)]

ghost use Rattle.std.specs.Prelude.{◌≤◌, ◌<◌, length};
ghost use Rattle.model.specs.Limits.{most_vertices, least_work};
ghost use Rattle.closure.specs.Closing.{Closable, Closes};
ghost use Rattle.closure.specs.Turns.{RowClosable, ClosesRow, TakesIn};

// Merges row p into row a. Vertex p is open no more, nor is any of row p if that row is closed already.
fn take_in(w: &mut [u64], a: usize, p: usize)
    requires { (a < most_vertices) × ((p < most_vertices) × (least_work ≤ length w.old)) }
    ensures { TakesIn w.old w.new a p }
{
    rows::union(w, a, a, p);
    rows::unmark(w, rows::OPEN, p);
    if p < a {
        rows::subtract(w, rows::OPEN, rows::OPEN, p);
    }
}

// Closes row a, the rows before it being closed: takes in the rows of its open vertices until it has none.
fn close_row(w: &mut [u64], domain: usize, a: usize)
    requires { RowClosable w.old domain a }
    ensures { ClosesRow w.old w.new a }
{
    rows::copy(w, rows::OPEN, domain);
    while let Some(p) = rows::common(w, a, rows::OPEN) {
        take_in(w, a, p);
    }
}

// Closes the step rows. The vertices that step anywhere are in row `domain`, and those that a second step follows in row REST: the rows of
// the others are closed as they are, and these take them in.
pub fn close(w: &mut [u64], domain: usize)
    requires { Closable w.old domain }
    ensures { Closes w.old w.new }
{
    let mut from = 0;
    while let Some(a) = rows::next(w, rows::REST, from) {
        close_row(w, domain, a);
        from = a + 1;
    }
}
