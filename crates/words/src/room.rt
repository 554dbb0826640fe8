// Room of a fixed size, lent to what is called.
ghost use Rattle.std.specs.Prelude.{◌≡◌, length, replicate};

// So many places, each with the same value.
pub fn filled<T: Copy, const N: usize>(value: T) -> [T; N]
    ensures value { result ≡ replicate N value }
    ensures sized { N ≡ length result }
{
    [value; N]
}
