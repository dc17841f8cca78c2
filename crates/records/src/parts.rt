// Where the parts of a line end. A place in a line is where a part starts.
ghost use Rattle.std.specs.Prelude.{◌≤◌, ◌≡◌, length, drop};
ghost use Rattle.records.specs.Ends.{EndsAt, IsLast};

use numerals::find;

// Where the part that starts at `from` ends, if another one stands behind it.
#[tactic(auto, using(crate::specs::Ends::ends))]
pub fn part_end(line: &[u8], from: usize, c: u8) -> Option<usize>
    requires { from ≤ length line.now }
    ensures { EndsAt result c line.now from }
{
    let end = find(line, from, c);
    if end == line.len() {
        return None;
    }
    Some(end)
}

// Whether the part that starts at `from` is the last one.
#[tactic(auto, using(crate::specs::Ends::ends))]
pub fn is_last(line: &[u8], from: usize, c: u8) -> bool
    requires { from ≤ length line.now }
    ensures { IsLast result c line.now from }
{
    find(line, from, c) == line.len()
}
