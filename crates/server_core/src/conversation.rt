use items::Ending;
use request_form::{NoMemory, Said};
use std::sync::Wait;
use std::thread::Threads;

/// What hears the items of a stream, and answers each one.
///
/// An instance says by `talk` what its items, its replies and its sessions are, and proves of each call only what that call does
/// to what is still to be heard (`reads`), to who answers (`session`), and to the count of faults that it met. The loop over it
/// says of whole streams what was answered, what was written, and how the stream ended. After want of memory it isn't used
/// again.
pub trait Conversation {
    ghost use Rattle.std.specs.Prelude.{◌≡◌, ℕ, List, [], OnOk, IfOk};
    ghost use denote.Param.Send.{IsSync};
    ghost use Rattle.items.specs.Items.{ItemStream, IsFed, IsNextItem, IsEndOf};
    ghost use Rattle.server_core.specs.Talk.{Talk, IsAnswer};

    /// What is heard.
    type Item;

    /// What the conversation is about.
    ghost talk: { Talk Self.Item };

    /// What is still to be heard, where the stream goes on by these bytes and then ends.
    ghost reads: { Self → List ℕ → ItemStream Self.Item };

    /// Who answers.
    ghost session: { Self → talk.Session };

    /// How often the outside has failed for it.
    ghost faults: { Self → ℕ };

    /// What no call changes, such as the store whose session it is.
    ghost Kept: { Type 0 } = { Unit {0} };

    /// That of a conversation.
    ghost kept: { Self → Self.Kept };

    /// Takes the stream's next bytes.
    fn feed(&mut self, piece: &[u8]) -> Result<(), NoMemory>
        ensures fed { OnOk result (IsFed (reads self.old) piece.now (reads self.new)) }
        ensures session { session self.new ≡ session self.old }
        ensures faults { faults self.new ≡ faults self.old }
        ensures kept { kept self.new ≡ kept self.old };

    /// The next whole item of the bytes that were fed, or none where only a part of one is left.
    fn next(&mut self) -> Result<Option<Self::Item>, NoMemory>
        ensures next { IfOk result (λ item. IsNextItem talk.IsWell (reads self.old) item (reads self.new)) }
        ensures session { session self.new ≡ session self.old }
        ensures faults { faults self.new ≡ faults self.old }
        ensures kept { kept self.new ≡ kept self.old };

    /// What is left over at the end of the stream, once `next` has answered none.
    fn end(&mut self) -> Result<Ending<Self::Item>, NoMemory>
        requires { (reads self.old []).whole ≡ [] }
        ensures left { IfOk result (λ ending. IsEndOf talk.IsWell (reads self.old) ending) }
        ensures session { session self.new ≡ session self.old }
        ensures faults { faults self.new ≡ faults self.old }
        ensures kept { kept self.new ≡ kept self.old };

    /// Whether the item is the last that has a reply.
    fn is_last(item: &Self::Item) -> bool
        ensures { result ≡ talk.is_last item.now };

    /// The reply to an item, as it is written. It may wait. Where no memory is found the reply was made and isn't said, and the
    /// stream ends.
    fn answer<R: Wait + Threads + Sync>(
        &mut self,
        rt: &R,
        item: Self::Item,
    ) -> Result<Said, NoMemory>
        requires well { talk.IsWell item }
        requires sync { IsSync R.row }
        ensures answer { IsAnswer talk (session self.old) (faults self.old) item result (session self.new) (faults self.new) }
        ensures reads { reads self.new ≡ reads self.old }
        ensures kept { kept self.new ≡ kept self.old };
}
