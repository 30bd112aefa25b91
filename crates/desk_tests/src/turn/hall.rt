//! Any number of threads that write, whose passes come from an owner under a mutex and go back to it.
ghost use Rattle.std.specs.Prelude.{◌≡◌, [], IfSome, Some};
ghost use Rattle.atomic_table.specs.Seated.{TableId};

use crate::turn::notebook::{Notebook, Text};
use crate::turn::writers::write_times;
use std::alloc::Global;
use std::marker::{Brand, PhantomData};
use std::sync::{Arc, Mutex, Wait};
use std::thread;
use std::thread::Threads;
use turn_lock::{Owner, Pass, Turn};

/// Which lock it is, and its title. Each call of a program picks it.
pub trait Naming {
    ghost use Rattle.std.specs.Prelude.{ℕ};

    ghost lock: { TableId };

    ghost title: { ℕ };
}

impl Naming for Brand {
    ghost lock = { record { words = 0; slots = 0; views_name = 0; atom = 0; block = 0; offset = 0; slot_names = [] } };

    ghost title = { 0 };
}

/// An owner, as it lies under a mutex.
#[derive(Drop)]
struct Desk<N: Naming> {
    owner: Owner<Notebook>,
    of: PhantomData<N>,
    ghost mine: { (owner.lock ≡ N.lock) × (owner.fixed ≡ Some N.title) },
}

/// A lock beside its owner.
#[derive(Drop)]
struct Hall<N: Naming> {
    turn: Turn<Notebook>,
    desk: Mutex<Desk<N>>,
    ghost mine: { turn ≡ N.lock },
}

impl<N: Naming> Desk<N> {
    fn new(owner: Owner<Notebook>) -> Desk<N>
        requires { (owner.lock ≡ N.lock) × (owner.fixed ≡ Some N.title) }
        ensures { result.owner ≡ owner }
    {
        Desk {
            owner,
            of: PhantomData,
        }
    }

    fn pass(&mut self, turn: &Turn<Notebook>) -> Option<Pass<Notebook>>
        requires { turn.now ≡ N.lock }
        ensures { IfSome result (λ p. p.lock ≡ N.lock) }
    {
        self.owner.pass(turn).ok()
    }

    fn take_back(&mut self, turn: &Turn<Notebook>, pass: Pass<Notebook>)
        requires { (turn.now ≡ N.lock) × (pass.lock ≡ N.lock) }
    {
        self.owner.take_back(turn, pass);
    }

    fn close(self, turn: Turn<Notebook>) -> Option<Notebook>
        requires { turn ≡ N.lock }
        ensures { IfSome result (λ b. b.1 ≡ N.title) }
    {
        let Desk { owner, of: _ } = self;
        owner.close(turn).ok()
    }
}

/// How many threads write, in how many rounds, each with a pass of its own, and how many texts a round has.
#[derive(Clone, Copy)]
pub struct Work {
    /// Threads.
    pub writers: u32,
    /// Rounds of each thread.
    pub rounds: u32,
    /// Texts of each round.
    pub texts: usize,
}

fn write_round<N: Naming, R: Wait>(rt: &R, hall: &Hall<N>, text: &Arc<Text, Global>, texts: usize) {
    let Some(mut pass) = hall.desk.lock(rt).pass(&hall.turn) else {
        return;
    };
    write_times(rt, &hall.turn, &mut pass, text, texts);
    hall.desk.lock(rt).take_back(&hall.turn, pass);
}

fn write_rounds<N: Naming, R: Wait>(rt: &R, hall: &Hall<N>, text: &Arc<Text, Global>, work: Work) {
    for _ in 0..work.rounds {
        write_round(rt, hall, text, work.texts);
    }
}

fn write_all<N: Naming + Send + Sync, R: Threads + Wait + Sync>(
    rt: &R,
    hall: &Hall<N>,
    text: &Arc<Text, Global>,
    work: Work,
) {
    thread::scope(thread::scope_env(), rt, |scope| {
        for _ in 0..work.writers {
            if scope
                .spawn(move || write_rounds(rt, hall, text, work))
                .is_err()
            {
                write_rounds(rt, hall, text, work);
            }
        }
    });
}

fn write_in<N: Naming + Send + Sync, R: Threads + Wait + Sync>(
    rt: &R,
    turn: Turn<Notebook>,
    owner: Owner<Notebook>,
    text: &Arc<Text, Global>,
    work: Work,
) -> Option<Notebook>
    requires { (turn ≡ N.lock) × (owner.lock ≡ N.lock) × (owner.fixed ≡ Some N.title) }
    ensures { IfSome result (λ b. b.1 ≡ N.title) }
{
    let hall = Hall::<N> {
        turn,
        desk: Mutex::new(Desk::new(owner)),
    };
    write_all(rt, &hall, text, work);
    let Hall { turn, desk } = hall;
    desk.into_inner().close(turn)
}

/// A notebook of this title, after the work.
pub fn written<R: Threads + Wait + Sync>(
    rt: &R,
    alloc: Global,
    title: u64,
    text: &Arc<Text, Global>,
    work: Work,
) -> Option<Notebook>
    ensures { IfSome result (λ b. b.1 ≡ title) }
{
    let (turn, owner) = Turn::new(alloc, Notebook::new(alloc, title)).ok()?;
    write_in::<Brand, R>(rt, turn, owner, text, work)
}
