use faults::NoMemory;
use std::alloc::Global;

/// The text of a line as it comes, decoded. It is no comment, and the end of a line isn't part of it.
pub trait Body: Drop {
    ghost use Rattle.std.specs.Prelude.{◌≡◌, ◌<◌, ◌+◌, ◌≤◌, ◌++◌, ℕ, List, [], length, IfOk};
    ghost use Rattle.items.specs.Lines.{Lining, IsLining};
    ghost use Rattle.items.specs.Text.{IsWithout, IsText, Takes};

    /// What a line says.
    type Item;

    /// What lines say, by their texts.
    ghost lining: { Lining Self.Item };

    /// What is known of each item.
    ghost IsWell: { Self.Item → Type 0 };

    /// The text that has come, or one as long that spells the same however it goes on.
    ghost text: { Self → List ℕ };

    /// The most bytes of a line, its end not counted, at least one.
    fn limit() -> usize
        ensures { result ≡ lining.limit };

    /// A line of which nothing has come.
    fn new(alloc: Global) -> Self
        ensures { text result ≡ [] };

    /// Takes bytes off the front of a piece, at least one, and says how many, or none where the line is bad with the piece,
    /// however it goes on; then it isn't used again, and neither is it after want of memory. No line gets more bytes than its
    /// limit, and none of them is a line feed. The first byte of a line is no `#`.
    fn take(&mut self, alloc: Global, piece: &[u8]) -> Result<Option<usize>, NoMemory>
        requires old { IsText (text self.old) }
        requires some { 0 < length piece.now }
        requires short { length (text self.old) + length piece.now ≤ lining.limit }
        requires no_feed { IsWithout 10 piece.now }
        requires no_mark { IsText (text self.old ++ piece.now) }
        ensures { IfOk result (λ count. Takes lining (text self.old) piece.now (text self.new) count) };

    /// What the line says, now that it has ended. It isn't empty.
    fn into_item(self, alloc: Global) -> Result<Self::Item, NoMemory>
        requires { 0 < length (text self) }
        ensures item { IfOk result (λ item. lining.spelled (text self) ≡ item) }
        ensures well { IfOk result IsWell };

    /// What a line says that is bad.
    fn bad() -> Self::Item
        ensures item { result ≡ lining.bad }
        ensures well { IsWell result };

    /// A line may have a byte, and one that begins with a space is bad.
    ghost is_lining: { IsLining lining };
}
