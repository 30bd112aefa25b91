//! Laws of a stream that was served.

ghost use Rattle.server_core.specs.Conversed.{ConversedExactly, ConversedTold};
ghost use Rattle.server_core.specs.Laws.{ServedExactly, ServedAlone};

use crate::conversation::Conversation;
use request_form::laws::transcripts_hold;

/// A stream that was served ended exactly as the bytes taken, the replies written and the count of ends say. And where
/// the session saw no event but its own, what was written is said of a transcript alone, in which the outside failed
/// no more often than the service's count rose by.
pub fn endings_hold()
    ensures exact { ServedExactly }
    ensures alone { ServedAlone }
{
    transcripts_hold();
}

/// A conversation ended exactly as the bytes taken, the replies written and the count of ends say.
pub fn conversations_end_exactly<C: Conversation>()
    ensures { ConversedExactly C.talk }
{}

/// A conversation over a stream that tells what it gave and what was written leaves neither open.
pub fn conversations_are_told<C: Conversation>()
    ensures { ConversedTold C.talk }
{}
