//! Tests of sessions that a script or a frame can't show: sessions that wait for one another, hang up, finish one update at once or are
//! hindered by doors that fail, a worker of a load that stops, and what each is told while others go on. Each test shows the same under
//! every schedule.
#![tactic(auto)]

#[cfg(test)]
mod calls;
#[cfg(test)]
mod gate;
#[cfg(test)]
mod hanging_up;
#[cfg(test)]
mod hindered;
#[cfg(test)]
mod repairing;
#[cfg(test)]
mod stopping;
#[cfg(test)]
mod store;
#[cfg(test)]
mod waiting;
