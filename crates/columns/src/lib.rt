// Columns of numbers side by side: where a row stands, by halves, and what becomes of one column as a row is put in.
// All here is internal: the caller has checked the count.
#![tactic(auto)]

ghost use Rattle.std.specs.Prelude.{◌≡◌, ◌≤◌, ◌<◌};
ghost use Rattle.ids.specs.Limits.{most_held};
ghost use Rattle.columns.specs.Rows.{Turning, PutIn};

use ids::limits::MOST_HELD;

// The first of `count` places for which `before` is false, or `count`, if it is false of all later ones too.
// A binary search written out: the library's goes over one slice, and a row here stands in several, as the C interface lays them out.
pub fn place<F: Fn(usize) -> bool>(count: usize, before: F) -> usize
    requires { (i : _) → i < count → F.pre before i }
    ensures { Turning (F.post before) count result }
{
    let mut low = 0;
    let mut high = count;
    while low < high {
        let mid = low + (high - low) / 2;
        if before(mid) {
            low = mid + 1;
        } else {
            high = mid;
        }
    }
    low
}

// x put in at place `at`; what is there and after it moves up by one. The count is that of all columns side by side, as the C interface lays them
// out.
pub fn insert<T: Copy>(s: &mut [T; MOST_HELD], count: usize, at: usize, x: T)
    requires { (at ≤ count) × (count < most_held) }
    ensures { PutIn count at s.old x s.new }
{
    s.copy_within(at..count, at + 1);
    s[at] = x;
}
