//! Lists, taken from the left.

ghost use Rattle.std.specs.Prelude.{◌≡◌, [], ◌∷◌, MatchOption};

/// The first element and those behind it.
pub(crate) fn split<T>(list: &[T]) -> Option<(&T, &[T])>
    ensures { MatchOption result (list.now ≡ []) (λ parts. list.now ≡ parts.0.now ∷ parts.1.now) }
{
    list.split_first()
}
