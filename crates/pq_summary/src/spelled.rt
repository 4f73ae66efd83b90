ghost use Rattle.std.specs.Prelude.{◌≡◌, ◌^◌, ◌<◌, ℕ, sum_by};

/// What is spelled in bytes.
pub trait Spelled {
    /// How many bytes it takes.
    ghost bytes: { Self → ℕ };

    /// How many bytes it takes.
    fn length(&self) -> usize
        requires { bytes self.now < 2 ^ 64 }
        ensures { result ≡ bytes self.now };
}

/// How many bytes the values take together.
pub fn total<T: Spelled>(values: &[T]) -> usize
    requires { sum_by T.Spelled.bytes values.now < 2 ^ 64 }
    ensures { result ≡ sum_by T.Spelled.bytes values.now }
{
    let mut total = 0;
    for value in values {
        total += value.length();
    }
    total
}
