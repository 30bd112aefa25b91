//! Tests of sixteen sessions of one store at once, on threads: what each was told agrees with the updates played again over flat bytes,
//! and with what the store holds in the end. Each test shows the same under every schedule.
#![tactic(auto)]

#[cfg(test)]
mod calls;
#[cfg(test)]
mod client;
#[cfg(test)]
mod crowd;
#[cfg(test)]
mod replay;
#[cfg(test)]
mod script;
