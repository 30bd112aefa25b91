use crate::stream::{Ends, Sink, Source, Taken, Written};

/// A source and a sink as one stream: it is read by the one and written by the other.
#[derive(Drop)]
pub struct Pair<'a, S, K> {
    /// What is read.
    pub source: &'a mut S,
    /// What is written.
    pub sink: &'a mut K,
}

impl<'a, S: Source, K: Sink> Ends for Pair<'a, S, K> {
    ghost use Rattle.std.specs.Prelude.{◌∷◌, []};

    ghost given = { λ p. S.given p.source.now };

    ghost left = { λ p. S.left p.source.now };

    ghost written = { λ p. K.written p.sink.now };

    ghost read_faults = { λ p. S.read_faults p.source.now };

    ghost write_faults = { λ p. K.write_faults p.sink.now };

    ghost ends = { λ p. S.ends p.source.now };

    ghost objects = { λ p. p.source.ghost_name ∷ p.sink.ghost_name ∷ [] };
}

impl<'a, S: Source, K: Sink> Source for Pair<'a, S, K> {
    fn read(&mut self, buf: &mut [u8]) -> Taken {
        self.source.read(buf)
    }
}

impl<'a, S: Source, K: Sink> Sink for Pair<'a, S, K> {
    fn write(&mut self, bytes: &[u8]) -> Written {
        self.sink.write(bytes)
    }
}
