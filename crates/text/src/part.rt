// Parts of what was lent, cut at the end where it is shorter than asked.
ghost use Rattle.std.specs.Prelude.{◌≡◌, take, drop};

pub fn front<T>(list: &[T], n: usize) -> &[T]
    ensures { result.now ≡ take n list.now }
{
    &list[..n.min(list.len())]
}

pub fn rest<T>(list: &[T], n: usize) -> &[T]
    ensures { result.now ≡ drop n list.now }
{
    &list[n.min(list.len())..]
}
