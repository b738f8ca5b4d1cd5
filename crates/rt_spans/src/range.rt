// Ranges of vectors.
ghost use Rattle.std.specs.Prelude.{◌≡◌, ◌+◌, ◌-◌, ◌≤◌, ◌++◌, take, drop, vec_len, vec_capacity};

/// Takes the elements of a range away.
pub fn remove_range<T: Drop>(items: &mut Vec<T>, from: usize, to: usize)
    requires order { from ≤ to }
    requires within { to ≤ vec_len items.old }
    ensures items { items.new.items ≡ take from items.old.items ++ drop to items.old.items }
    ensures len { vec_len items.new + (to - from) ≡ vec_len items.old }
    ensures capacity { vec_capacity items.new ≡ vec_capacity items.old }
{
    drop(items.drain(from..to));
}
