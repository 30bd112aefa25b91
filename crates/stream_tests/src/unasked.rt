//! A session for streams that ask for nothing.

use request_form::{Reply, Request, Service};
use std::sync::Wait;
use std::thread::Threads;

/// A session that is never asked: a request would find it waiting for ever.
#[derive(Drop)]
pub(crate) struct Unasked;

impl Service for Unasked {
    ghost use Rattle.blob_model.specs.Limits.{greatest};
    ghost use Rattle.request_form.specs.Transcript.{first_session};

    ghost session = { λ s. first_session (record { limits = greatest; page = 4096 }) 1 };

    ghost faults = { λ s. 0 };

    ghost turns = { λ s. 0 };

    ghost kept = { λ s. tt };

    fn answer<R: Wait + Threads + Sync>(&mut self, rt: &R, _request: Request) -> Reply {
        for _ in rt.forever() {}
        unreachable!()
    }
}
