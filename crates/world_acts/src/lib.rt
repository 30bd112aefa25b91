//! That the program's acts are steps of the world.
//!
//! `blob_core` has the theorem over every list of atomic steps, of a world that no part of the program knows. Here the clauses of the
//! program's calls are tied to those steps. A world is *one of a desk's history* where allowed steps lead to it whose changes are the
//! history's events. Each act of the program is a step that may be taken in every such world, and leads to a world of the history
//! after the act, which is what is called a forward simulation. So whatever order the acts of all sessions come in,
//! `blob_core::steps_hold` speaks of them. These are laws: contracts of functions that do nothing. Nothing links this crate into the program.
#![tactic(auto)]

pub mod laws;
