// The work of a watch's keeper.
ghost use Rattle.std.specs.Prelude.{◌≡◌, ◌+◌, IfOk, IfErr, OnOk, length};
ghost use Rattle.read_board.specs.Refreshing.{Refreshed, IsRecent};
ghost use Rattle.workload_run.specs.Keeping.{MayRefresh, RefreshHindered, Refreshes};

use crate::writing::BLOB;
use client_session::Session;
use page_store::Door;
use ports::gate::Gate;
use read_board::{Keeper, RefreshFault};
use request_form::Fault;
use std::sync::Wait;
use workload_law::WatchPlan;
use workload_law::laws::sessions_own;

/// Refreshes the watched blob once, and answers the version.
pub(crate) fn refresh_blob<R: Wait, W: Wait + Drop, D: Door, G: Gate>(
    rt: &R,
    keeper: &mut Keeper<W>,
    session: &mut Session<'_, D, G>,
) -> Result<u64, Fault>
    requires may { MayRefresh keeper.old session.old }
    ensures done { IfOk result (λ version. Refreshed keeper.old keeper.new 1 version) }
    ensures recent { IfOk result (λ version. IsRecent session.old session.new 1 version) }
    ensures hindered { IfErr result (RefreshHindered session.new) }
    ensures refreshes { Refreshes keeper.old keeper.new session.old session.new }
{
    sessions_own();
    match keeper.refresh(rt, session, BLOB) {
        Ok(version) => Ok(version),
        Err(RefreshFault::Fault(fault)) => Err(fault),
        Err(RefreshFault::BoardFull) => {
            // No other blob is on the board.
            unreachable!()
        }
    }
}

/// Refreshes the watched blob as often as the plan has operations.
pub(crate) fn keep_all<R: Wait, W: Wait + Drop, D: Door, G: Gate>(
    rt: &R,
    keeper: &mut Keeper<W>,
    session: &mut Session<'_, D, G>,
    plan: &WatchPlan,
) -> Result<(), Fault>
    requires may { MayRefresh keeper.old session.old }
    ensures count { OnOk result (length keeper.new.all ≡ length keeper.old.all + plan.now.ops) }
    ensures hindered { IfErr result (RefreshHindered session.new) }
    ensures refreshes { Refreshes keeper.old keeper.new session.old session.new }
{
    'refreshes: for _ in 0..plan.ops {
        match refresh_blob(rt, keeper, session) {
            Ok(_version) => {}
            Err(fault) => return Err(fault),
        }
    }
    Ok(())
}
