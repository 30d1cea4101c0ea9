// Parts of lent slices, as far as these go.
ghost use Rattle.std.specs.Prelude.{◌≤◌, min, ◌≡◌, length, take, drop};

// A place in a slice, or its end for a place past it.
pub fn within<T>(at: usize, list: &[T]) -> usize
    ensures value { result ≡ min at (length list.now) }
    ensures upper_bound { (result ≤ length list.now) × (result ≡ length (take result list.now)) }
{
    at.min(list.len())
}

// What stands from a place on, n of them, or as many as there are.
pub fn part<T>(list: &[T], from: usize, n: usize) -> &[T]
    ensures { result.now ≡ take n (drop from list.now) }
{
    let start = within(from, list);
    first(&list[start..], n)
}

// The first of a list, or all where there are fewer.
pub fn first<T>(list: &[T], n: usize) -> &[T]
    ensures { result.now ≡ take n list.now }
{
    let end = n.min(list.len());
    &list[..end]
}
