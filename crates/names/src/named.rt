ghost use Rattle.std.specs.Prelude.{◌≡◌, ℕ, List, IfSome};
ghost use Rattle.std.specs.List.{find};
ghost use Rattle.std.specs.Str.{bytes_eq};

// Bytes that name nothing here, or a number that does not.
#[derive(Clone, Copy, PartialEq, Eq, Debug)]
pub struct Unnamed;

// A type whose values have fixed byte strings, each as `spelling` says. `TryFrom` is std's, and so are slices: each type has its own impl.
pub(crate) trait Named: Copy {
    ghost spelling: { Self → List ℕ };

    // The byte string of the value.
    fn spelled(self) -> &'static [u8]
        ensures { result.now ≡ spelling self };
}

// The first of these that has the byte string.
pub(crate) fn with_spelling<T: Named>(all: &[T], bytes: &[u8]) -> Option<T>
    ensures answer { result ≡ find (λ x. bytes_eq bytes.now (T.spelling x)) all.now }
    ensures has { IfSome result (λ x. bytes.now ≡ T.spelling x) }
{
    all.iter().copied().find(|x| bytes == x.spelled())
}
