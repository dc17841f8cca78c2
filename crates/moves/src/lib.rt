// Runs of words or of amounts moved within a lent table or laid into one. Each function is generic, so it serves words and amounts alike, and says what the whole table is afterwards.
#![tactic(auto)]

ghost use Rattle.std.specs.Prelude.{◌+◌, ◌≤◌, ◌≡◌, length};
ghost use Rattle.laws.specs.Cuts.{cut, put};

// n elements moved to another place; they may overlap.
pub fn move_within<T: Copy>(t: &mut [T], from: usize, to: usize, n: usize)
    requires from_in_bounds { from + n ≤ length t.old }
    requires to_in_bounds { to + n ≤ length t.old }
    ensures { t.new ≡ put t.old to (cut from n t.old) }
{
    t.copy_within(from..from + n, to);
}

// The elements s laid into t.
pub fn lay<T: Copy>(t: &mut [T], at: usize, s: &[T])
    requires { at + length s.now ≤ length t.old }
    ensures { t.new ≡ put t.old at s.now }
{
    t[at..at + s.len()].copy_from_slice(s);
}
