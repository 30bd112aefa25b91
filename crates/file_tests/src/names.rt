//! Paths that no line can hold, and a name that comes between a look and its entering.
ghost use Rattle.std.specs.Prelude.{◌≡◌};

use crate::heard::path_of;
use file_names::{Enter, EnterFault, Foresee, Named, Names, Path, is_path};
use std::process::Abort;
use std::sync::Wait;
use turn_lock::{Owner, Pass, Turn};

#[test]
fn no_line_end_is_in_a_path_and_nothing_is_none(rt: HostRuntime) {
    for text in ["", "/a\n", "/a\r", "/a\r/b", "\n"] {
        assert!(rt; !is_path(text.as_bytes()));
    }
}

// Why a path can't be entered, in one turn.
fn foresee<R: Wait>(
    rt: &R,
    turn: &Turn<Names>,
    pass: &mut Pass<Names>,
    path: &Path,
) -> Option<EnterFault>
    requires { pass.old.lock ≡ turn.now }
    ensures { pass.new.lock ≡ turn.now }
{
    turn.with_turn(rt, pass, Foresee { path })
}

// Enters a file, in one turn.
fn enter_file<R: Wait>(
    rt: &R,
    turn: &Turn<Names>,
    pass: &mut Pass<Names>,
    path: &Path,
    blob: u64,
) -> Result<(), EnterFault>
    requires { pass.old.lock ≡ turn.now }
    ensures { pass.new.lock ≡ turn.now }
{
    turn.with_turn(
        rt,
        pass,
        Enter {
            path,
            named: Named::File(blob),
        },
    )
}

// One session finds no reason, the other enters the name, and then it exists for the first.
fn check_between<R: Wait + Abort>(rt: &R, turn: &Turn<Names>, owner: &mut Owner<Names>, path: &Path)
    requires { owner.old.lock ≡ turn.now }
{
    let mut one = owner.pass(turn).expect(rt, "a pass");
    let mut two = owner.pass(turn).expect(rt, "a pass");
    assert!(rt; foresee(rt, turn, &mut one, path) == None);
    assert!(rt; enter_file(rt, turn, &mut two, path, 2) == Ok(()));
    assert!(rt; enter_file(rt, turn, &mut one, path, 1) == Err(EnterFault::Exists));
}

#[test]
fn a_name_that_another_session_entered_in_between_exists(rt: HostRuntime) {
    let alloc = rt.alloc();
    let names = Names::new(alloc).expect(&rt, "memory");
    let (turn, mut owner) = Turn::new(alloc, names).expect(&rt, "memory");
    check_between(&rt, &turn, &mut owner, &path_of(&rt, alloc, "/a"));
}
