//! A state whose entries own memory: texts that others share, each with who wrote it, under a title that stays.
ghost use Rattle.std.specs.Prelude.{◌≡◌, ◌<◌, ◌++◌, [], ◌∷◌, length, slice_get, Some, MatchBool};
ghost use Rattle.std.specs.Arc.{arc_value};

use std::alloc::Global;
use std::marker::Model;
use std::sync::Arc;
use turn_lock::{Act, Journaled};

/// A text. Contracts see its bytes.
#[derive(Drop)]
pub struct Text {
    bytes: Vec<u8>,
}

impl Model for Text {
    ghost use Rattle.std.specs.Prelude.{ℕ, List};

    ghost Value = { List ℕ };

    ghost view = { λ t. t.bytes.items };
}

impl Text {
    /// A text of these bytes.
    pub fn new(bytes: Vec<u8>) -> Text
        ensures { result ≡ bytes.items }
    {
        Text { bytes }
    }

    /// How many bytes it has.
    pub fn len(&self) -> usize
        ensures { result ≡ length self.now }
    {
        self.bytes.len()
    }
}

/// The most texts that a notebook takes.
const MOST: usize = 0x3f_ffff_ffff;

/// Texts in the order in which they were written, and a title.
#[derive(Drop)]
pub struct Notebook {
    notes: Vec<(u32, Arc<Text, Global>)>,
    title: u64,
}

impl Model for Notebook {
    ghost use Rattle.std.specs.Prelude.{◌<◌, ◌^◌, ℕ, List, length, map};
    ghost use Rattle.std.specs.Arc.{arc_value};

    ghost Value = { List (ℕ × List ℕ) × ℕ };

    ghost view = { λ b. (map (λ e. (e.0, arc_value e.1)) b.notes.items, b.title) };

    ghost invariant = { λ b. length b.notes.items < 2 ^ 38 };
}

impl Journaled for Notebook {
    type Entry = Text;

    type Fixed = u64;

    ghost history = { λ b. b.0 };

    ghost fixed = { λ b. b.1 };

    fn count(&self) -> u64 {
        self.notes.len() as u64
    }
}

impl Notebook {
    /// A notebook without texts.
    pub fn new(alloc: Global, title: u64) -> Notebook
        ensures { result ≡ ([], title) }
    {
        Notebook {
            notes: Vec::new(alloc),
            title,
        }
    }

    /// Shares a text as the last one. False where there is no room or no memory.
    pub fn write(&mut self, by: u32, text: &Arc<Text, Global>) -> bool
        ensures texts { MatchBool result (self.new.0 ≡ self.old.0 ++ (by, arc_value text.now) ∷ []) (self.new.0 ≡ self.old.0) }
        ensures title { self.new.1 ≡ self.old.1 }
    {
        if self.notes.len() >= MOST {
            return false;
        }
        let Ok(text) = Arc::try_clone(text) else {
            return false;
        };
        self.notes.push((by, text)).is_ok()
    }

    /// Who wrote a text, and its length.
    pub fn note(&self, at: usize) -> (u32, usize)
        requires { at < length self.now.0 }
    {
        let (by, text) = &self.notes[at];
        (*by, text.len())
    }

    /// How many texts a caller wrote.
    pub fn count_by(&self, caller: u32) -> usize {
        self.notes.iter().filter(|note| note.0 == caller).count()
    }

    /// How many texts there are.
    pub fn len(&self) -> usize
        ensures { result ≡ length self.now.0 }
    {
        self.notes.len()
    }
}

/// Writes a text that it borrows, and answers whether there was room.
pub struct Write<'a> {
    /// The text.
    pub text: &'a Arc<Text, Global>,
}

impl Act<Notebook> for Write<'_> {
    type Answer = bool;

    ghost ready = { λ _ _ _. Unit {0} };

    ghost gives = { λ a before _ by wrote after. MatchBool wrote (after ≡ before ++ (by, arc_value a.text.now) ∷ []) (after ≡ before) };

    fn act(self, state: &mut Notebook, caller: u32) -> bool {
        let Write { text } = self;
        state.write(caller, text)
    }

    ghost stays_ready = { λ _ _ _ _ _. tt };
}

/// Counts the texts, and adds none.
pub struct Count;

impl Act<Notebook> for Count {
    type Answer = usize;

    ghost ready = { λ _ _ _. Unit {0} };

    ghost gives = { λ _ before _ _ count after. (count ≡ length before) × (after ≡ before) };

    fn act(self, state: &mut Notebook, _caller: u32) -> usize {
        let Count = self;
        state.len()
    }

    ghost stays_ready = { λ _ _ _ _ _. tt };
}

/// Reads a text that is known to be there, into a place that it borrows for writing.
pub struct ReadAt<'a> {
    /// Which text.
    pub at: usize,
    /// Gets the text's length.
    pub len: &'a mut usize,
}

impl Act<Notebook> for ReadAt<'_> {
    type Answer = u32;

    ghost use Rattle.std.specs.Prelude.{◌≡◌, ◌<◌, length};
    ghost use Rattle.desk_tests.specs.Longer.{still_below};

    ghost ready = { λ a before _. a.at < length before };

    ghost gives = { λ _ before _ _ _ after. after ≡ before };

    fn act(self, state: &mut Notebook, _caller: u32) -> u32 {
        let ReadAt { at, len } = self;
        let (by, found) = state.note(at);
        *len = found;
        by
    }

    ghost stays_ready = { λ a xs ys _ h. still_below a.at xs ys h };
}
