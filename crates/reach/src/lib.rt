// Reachability: the atoms reached from one atom by the edges of a list.
#![tactic(auto)]

ghost use Rattle.std.specs.Prelude.{◌≡◌, min, length};
ghost use Rattle.table.specs.Sets.{member};
ghost use Rattle.reach.specs.Edges.{Reached};
ghost use Rattle.reach.specs.Rounds.{source, Followed, Round};

use table::sets::has;
use table::{Atom, Table};

// How many indices hold an edge: those below `count` and in both slices.
fn edge_count(from: &[u16], to: &[u16], count: usize) -> usize
    ensures { result ≡ min count (min (length from.now) (length to.now)) }
{
    count.min(from.len().min(to.len()))
}

// Are the edges that leave `a` followed: is it the start, or in the set?
fn is_source(flags: &[bool; Table::ATOMS], start: Atom, a: Atom) -> bool
    ensures { result ≡ source start.0 flags.now a.0 }
{
    if a.0 == start.0 {
        return true;
    }
    has(flags, a)
}

// Follows one edge, from `a` to `c`: where a is the start or in the set, c comes into the set. Was it new there?
fn follow_edge(flags: &mut [bool; Table::ATOMS], start: Atom, a: Atom, c: Atom) -> bool
    ensures { Followed start.0 a.0 c.0 flags.old flags.new result }
{
    if !is_source(flags, start, a) {
        return false;
    }
    let s = &mut flags[..];
    let i = a.0 as usize;
    if i >= s.len() {
        return false;
    }
    let j = c.0 as usize;
    if j >= s.len() {
        return false;
    }
    if s[j] {
        return false;
    }
    s[j] = true;
    true
}

// Follows each edge once. Did an atom come into the set?
fn round(
    flags: &mut [bool; Table::ATOMS],
    from: &[u16],
    to: &[u16],
    count: usize,
    start: Atom,
) -> bool
    ensures { Round from.now to.now count start.0 count
        flags.old flags.new result }
{
    let n = edge_count(from, to, count);
    let mut marked = false;
    for i in 0..n {
        let a = from[i];
        let c = to[i];
        let more = follow_edge(flags, start, Atom(a), Atom(c));
        marked = marked | more;
    }
    marked
}

// The atoms reached from `start` by one or more edges. Edge i leads from from[i] to to[i]; an edge with an end past the
// atoms is no edge. Rounds over the edges, up to the first in which no atom comes into the set.
pub fn reach(from: &[u16], to: &[u16], count: usize, start: Atom) -> [bool; Table::ATOMS]
    ensures { Reached from.now to.now count start.0 (member result) }
{
    let mut flags: [bool; Table::ATOMS] = [false; Table::ATOMS];
    let mut again = true;
    while again {
        again = round(&mut flags, from, to, count, start);
    }
    flags
}
