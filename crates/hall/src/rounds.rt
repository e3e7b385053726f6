// Numbers that go round.
ghost use Rattle.std.specs.Prelude.{◌≡◌, ◌<◌};
ghost use Rattle.algebra.specs.Hall.{next};

// The number after i among n, which after the last is 0.
pub fn after(n: usize, i: usize) -> usize
    requires { i < n }
    ensures value { result ≡ next n i }
    ensures bound { result < n }
{
    if i + 1 == n { 0 } else { i + 1 }
}
