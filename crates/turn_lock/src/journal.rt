//! A state with a history, and what is done to it in a turn.
ghost use Rattle.std.specs.Prelude.{◌≡◌, ℕ, ◌<◌, ◌^◌, List, ◌++◌, length};
ghost use Rattle.turn_lock.specs.History.{Adds};

/// A state that stores a history of entries, each with the caller that added it, and fixed data, which no act changes.
pub trait Journaled {
    /// What the history is a list of.
    type Entry;

    /// The fixed data.
    type Fixed;

    /// The stored history, oldest entry first, each with its caller.
    ghost history: { Self → List (ℕ × Self.Entry) };

    /// The fixed data of a state.
    ghost fixed: { Self → Self.Fixed };

    /// How many entries the history has. They are fewer than 2^38, which every state keeps.
    fn count(&self) -> u64
        ensures count { result ≡ length (history self.now) }
        ensures short { result < 2 ^ 38 };
}

/// What a pass does to the state in one turn. It may borrow what it works with, since it is used up in the call that it is handed to.
pub trait Act<S: Journaled> {
    /// What the act answers.
    type Answer;

    /// What the act needs of the history before it and of the fixed data.
    ghost ready: { Self → List (ℕ × S.Entry) → S.Fixed → Type 0 };

    /// What the act did: of the history before it, the fixed data, the caller, the answer and the history after it.
    ghost gives: { Self → List (ℕ × S.Entry) → S.Fixed → ℕ → Self.Answer → List (ℕ × S.Entry) → Type 0 };

    /// Changes the state. It adds at most one entry, of this caller, at the end of the history, and leaves the fixed data.
    fn act(self, state: &mut S, caller: u32) -> Self::Answer
        requires { ready self (S.history state.old) (S.fixed state.old) }
        ensures adds { Adds caller (S.history state.old) (S.history state.new) }
        ensures fixed { S.fixed state.new ≡ S.fixed state.old }
        ensures gives { gives self (S.history state.old) (S.fixed state.old) caller result (S.history state.new) };

    /// What the act needs, each longer history keeps.
    ghost stays_ready: { (a : Self) (xs ys : List (ℕ × S.Entry)) (f : S.Fixed) → ready a xs f → ready a (xs ++ ys) f };
}
