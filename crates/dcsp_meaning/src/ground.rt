//! What a constraint is asked about: the values of its arguments.

ghost use Rattle.std.specs.Prelude.{◌≡◌, ◌<◌, ℤ, Bool, List, length};
ghost use Rattle.dcsp_meaning.specs.Words.{argument};

/// The values of a constraint's arguments: scalars, two lists, and a set.
///
/// A list that a kind does not use is empty.
pub trait Ground {
    ghost scalar_values: { Self → List ℤ };

    ghost first_values: { Self → List ℤ };

    ghost second_values: { Self → List ℤ };

    ghost is_member: { Self → ℤ → Bool };

    /// The number of scalars.
    fn scalars(&self) -> usize
        ensures { result ≡ length (scalar_values self.now) };

    /// The scalar at a place.
    fn scalar(&self, place: usize) -> i64
        requires { place < length (scalar_values self.now) }
        ensures { result ≡ argument (scalar_values self.now) place };

    /// The length of the first list.
    fn first_len(&self) -> usize
        ensures { result ≡ length (first_values self.now) };

    /// The element of the first list at a place.
    fn first(&self, place: usize) -> i64
        requires { place < length (first_values self.now) }
        ensures { result ≡ argument (first_values self.now) place };

    /// The length of the second list.
    fn second_len(&self) -> usize
        ensures { result ≡ length (second_values self.now) };

    /// The element of the second list at a place.
    fn second(&self, place: usize) -> i64
        requires { place < length (second_values self.now) }
        ensures { result ≡ argument (second_values self.now) place };

    /// Whether the set has the value.
    fn member(&self, value: i64) -> bool
        ensures { result ≡ is_member self.now value };
}
