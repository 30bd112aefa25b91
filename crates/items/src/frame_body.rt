use faults::NoMemory;
use std::alloc::Global;

/// The bytes that a frame's length counts, as they come, decoded. The first of them decides what the others may be.
pub trait Body: Drop {
    ghost use Rattle.std.specs.Prelude.{◌≡◌, ◌<◌, ◌∷◌, ℕ, List, [], length, IfOk, MatchOption};
    ghost use Rattle.items.specs.Framing.{Framing, IsFraming};
    ghost use Rattle.items.specs.Come.{Come, TakesBytes};

    /// What a frame says.
    type Item;

    /// What frames say, by their bytes.
    ghost framing: { Framing Self.Item };

    /// What is known of each item.
    ghost IsWell: { Self.Item → Type 0 };

    /// The bytes that have come, and how many are still to come.
    ghost come: { Self → Come };

    /// The most bytes that a frame's length may count.
    fn limit() -> u32
        ensures { result ≡ framing.limit };

    /// What begins with this byte, where so many are still to come, or none where such a frame is bad.
    fn begin(alloc: Global, first: u8, left: u32) -> Option<Self>
        ensures { MatchOption result
            ((bytes : List ℕ) → length bytes ≡ left → framing.spelled (first ∷ bytes) ≡ framing.bad)
            (λ body. come body ≡ record { bytes = first ∷ []; left = left }) };

    /// How many bytes are still to come.
    fn left(&self) -> u32
        ensures { result ≡ (come self.now).left };

    /// Takes some bytes off the front of a piece, at least one, and says how many.
    fn take(&mut self, piece: &[u8]) -> Result<usize, NoMemory>
        requires more { 0 < (come self.old).left }
        requires some { 0 < length piece.now }
        ensures { IfOk result (TakesBytes (come self.old) piece.now (come self.new)) };

    /// What the frame says, now that all has come.
    fn into_item(self) -> Self::Item
        requires { (come self).left ≡ 0 }
        ensures item { framing.spelled (come self).bytes ≡ result }
        ensures well { IsWell result };

    /// What a frame says that is bad.
    fn bad() -> Self::Item
        ensures item { result ≡ framing.bad }
        ensures well { IsWell result };

    /// What a frame says whose length counts too many bytes.
    fn too_long(length: u32) -> Self::Item
        ensures item { result ≡ framing.too_long length }
        ensures well { IsWell result };

    /// A length counts as many as the limit, and a frame without bytes is bad, and one whose first byte is 0.
    ghost is_framing: { IsFraming framing };
}
