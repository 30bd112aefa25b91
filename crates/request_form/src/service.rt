use crate::form::{Reply, Request};
use std::sync::Wait;
use std::thread::Threads;

/// One session of a store. Other sessions may change the store between and within its answers.
pub trait Service {
    ghost use Rattle.std.specs.Prelude.{◌≡◌, ℕ, false};
    ghost use denote.Param.Send.{IsSync};
    ghost use Rattle.faults.specs.Counts.{RoseBy};
    ghost use Rattle.blob_model.specs.History.{AllOther};
    ghost use Rattle.request_form.specs.Session.{Session};
    ghost use Rattle.request_form.specs.Answers.{Answers, answer_faults};
    ghost use Rattle.request_form.specs.Transcript.{is_quit};
    ghost use Rattle.request_form.specs.TurnsTaken.{TakesTurns};

    /// Who asks, what it has seen, and the tickets that it holds.
    ghost session: { Self → Session };

    /// How often the outside has failed for it.
    ghost faults: { Self → ℕ };

    /// How many turns it has taken at the state that its sessions share.
    ghost turns: { Self → ℕ };

    /// What no answer changes, such as the store whose session it is.
    ghost Kept: { Type 0 } = { Unit {0} };

    /// That of a service.
    ghost kept: { Self → Self.Kept };

    /// Answers one request; Quit is answered by whoever serves the stream. It may wait for other sessions.
    fn answer<R: Wait + Threads + Sync>(&mut self, rt: &R, request: Request) -> Reply
        requires asks { is_quit request ≡ false }
        requires sync { IsSync R.row }
        ensures answers { Answers AllOther (session self.old) request result (session self.new) }
        ensures faults { RoseBy (answer_faults (session self.new) request result) (faults self.old) (faults self.new) }
        ensures turns { TakesTurns request (turns self.old) (turns self.new) }
        ensures kept { kept self.new ≡ kept self.old };
}
