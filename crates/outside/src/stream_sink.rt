ghost use Rattle.std.specs.Prelude.{◌≡◌, ℕ, ◌<◌, ◌≤◌, None, IfOk, OnErr, MatchResult, length};
ghost use Rattle.std.specs.Io.KnownBytes.{WriteAppends};
ghost use Rattle.outside.specs.Count.{Rose, raised};

use super::{Failed, Sink};
use std::io::Write;
use std::marker::Model;

/// A sink over a writer. It reports the bytes that the writer reports, and no calls. Contracts see it as its writer and
/// its number of faults.
#[derive(Drop)]
pub struct StreamSink<W: Write> {
    writer: W,
    faults: u64,
}

impl<W: Write> Model for StreamSink<W> {
    ghost use Rattle.outside.specs.StreamSink.{StreamSinkState};

    ghost Value = { StreamSinkState W };

    ghost view = { λ sink. record { writer = sink.writer; faults = sink.faults } };
}

impl<W: Write> StreamSink<W> {
    /// A sink that passes each piece to `writer`, which writes as much of it as it likes.
    pub fn new(writer: W) -> StreamSink<W>
        ensures writer { result.writer ≡ writer }
        ensures no_faults_yet { result.faults ≡ 0 }
    {
        StreamSink { writer, faults: 0 }
    }
}

impl<W: Write> Sink for StreamSink<W> {
    ghost told = { λ sink. W.contents sink.writer };

    ghost calls = { λ _. None };

    ghost faults = { λ sink. sink.faults };

    /// An error of the writer and a call that writes nothing are failures. Each increments the number of faults. The
    /// bytes that were written are appended to what the writer reports.
    fn write(&mut self, piece: &[u8]) -> Result<usize, Failed>
        requires not_empty { 0 < length piece.now }
        ensures faults_never_fall { self.old.faults ≤ self.new.faults }
        ensures failed_only_where_faults_rose { OnErr result (Rose self.old.faults self.new.faults) }
        ensures takes_some { IfOk result (λ n. 0 < n) }
        ensures takes_at_most_all { IfOk result (λ n. n ≤ length piece.now) }

        ensures failures_are_counted { MatchResult result (λ _. self.new.faults ≡ self.old.faults) (λ _. self.new.faults ≡ raised 1 self.old.faults) }
        ensures writer_gains { WriteAppends (W.contents self.old.writer) (W.contents self.new.writer) result piece.now }
    {
        match self.writer.write(piece) {
            Ok(count) if count > 0 => Ok(count),
            _ => {
                self.faults = self.faults.saturating_add(1);
                Err(Failed)
            }
        }
    }
}
