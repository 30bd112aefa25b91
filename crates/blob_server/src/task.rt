// Work of the calling thread beside other threads.
ghost use Rattle.std.specs.Prelude.{◌≡◌};
ghost use denote.Param.Send.{IsSync};

use std::sync::Wait;
use std::thread;
use std::thread::Threads;

/// What a thread does with values and references that it is handed. `join` says nothing of what a closure writes through a
/// reference that it holds: a task gives its references back, and tells what became of what they lend.
pub(crate) trait Task {
    ghost use Rattle.std.specs.Prelude.{◌≡◌};
    ghost use denote.Param.Send.{IsSync};

    /// What comes back.
    type Given;

    /// What it needs.
    ghost can_run: { Self → Type 0 };

    /// What it tells of what comes back.
    ghost gives: { Self → Self.Given → Type 0 };

    /// Does it. It may start threads, and wait for them.
    fn run<R: Threads + Wait + Sync>(self, rt: &R) -> Self::Given
        requires runs { can_run self }
        requires sync { IsSync R.row }
        ensures { gives self result };
}

/// Runs the closure in a new thread, or last where none can be made, and the task in this one.
pub(crate) fn run_beside<
    R: Threads + Wait + Sync,
    F: FnOnce() -> A + Send,
    T: Task<Given = B> + Drop,
    A: Send,
    B,
>(rt: &R, other: F, mine: T) -> (A, B)
    requires other { F.pre other }
    requires mine { T.can_run mine }
    ensures other { F.post other result.0 }
    ensures mine { T.gives mine result.1 }
{
    thread::join(
        rt,
        other,
        move || -> B
            requires { IsSync R.row × T.can_run mine }
            ensures { T.gives mine result }
        { mine.run(rt) },
    )
}

/// Does nothing, but this use of a reference that came back ties it to the one that was lent.
pub(crate) fn take_back<T>(lent: &mut T)
    ensures { lent.new ≡ lent.old }
{}
