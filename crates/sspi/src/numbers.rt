ghost use Rattle.std.specs.Prelude.{◌≡◌, ℕ, ◌==◌, IfSome};
ghost use Rattle.std.specs.List.{find};

// A number that no kind has, or no status.
#[derive(Clone, Copy, PartialEq, Eq, Debug)]
pub struct UnknownNumber(pub u32);

// A type whose values have numbers, each as `number_of` says. `From` and `TryFrom` are std's, and so are numbers: one impl of them for every such
// type is not allowed, so each type has its own.
pub(crate) trait Numbered: Copy {
    ghost number_of: { Self → ℕ };

    // The number of the value.
    fn code(self) -> u32
        ensures { result ≡ number_of self };
}

// The first of these that has the number.
pub(crate) fn with_number<T: Numbered>(all: &[T], n: u32) -> Option<T>
    ensures answer { result ≡ find (λ x. T.number_of x == n) all.now }
    ensures has { IfSome result (λ x. T.number_of x ≡ n) }
{
    all.iter().copied().find(|x| x.code() == n)
}
