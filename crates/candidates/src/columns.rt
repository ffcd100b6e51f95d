// One column of a list in memory, of which the first n places are in use: an entry is put in at one of
// them or behind the last, or taken out, and the places past the list stay as they are. By hand, a column
// and how many of its places are in use, as `list` hands them on: C lends a count for both columns.
ghost use Rattle.std.specs.Prelude.{◌≡◌, ◌≤◌, ◌<◌, length, take, insert, remove};
ghost use Rattle.numbers.specs.Written.{over};

#[tactic(auto, using(crate::proofs::Lists::put_in))]
pub(crate) fn put<T: Copy>(column: &mut [T], n: usize, at: usize, x: T)
    requires { (at ≤ n) × (n < length column.old) }
    ensures { column.new ≡ over (insert (take n column.old) at x) column.old }
{
    column.copy_within(at..n, at + 1);
    column[at] = x;
}

#[tactic(auto, using(crate::proofs::Lists::take_out))]
pub(crate) fn take_out<T: Copy>(column: &mut [T], n: usize, at: usize)
    requires { (at < n) × (n ≤ length column.old) }
    ensures { column.new ≡ over (remove (take n column.old) at) column.old }
{
    column.copy_within(at + 1..n, at);
}
