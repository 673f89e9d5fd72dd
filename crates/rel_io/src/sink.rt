//! A sink for text: what a put may answer, and what it appends.
ghost use Rattle.std.specs.Prelude.{◌≡◌, ℕ, ◌≤◌, List, Option, OnOk, OnErr};
ghost use Rattle.rel_io.specs.Told.{Rose, Appends, AppendsFront};

/// Why a put did not take the whole piece.
#[derive(Clone, Copy, Debug, PartialEq, Eq, Drop)]
pub enum SinkFault {
    /// The system refused, or took nothing. The count of faults rises.
    Failed,
}

/// What takes bytes, piece by piece.
pub trait Sink {
    /// The bytes taken so far, where they are told.
    ghost written: { Self → Option (List ℕ) };

    /// The faults so far.
    ghost faults: { Self → ℕ };

    /// Appends the piece. Where that fails a front of it may stand there.
    fn put(&mut self, piece: &[u8]) -> Result<(), SinkFault>
        ensures appended { OnOk result (Appends (written self.old) (written self.new) piece.now) }
        ensures front { OnErr result (AppendsFront (written self.old) (written self.new) piece.now) }
        ensures failed { OnErr result (Rose (faults self.old) (faults self.new)) }
        ensures faults_stay { OnOk result (faults self.new ≡ faults self.old) }
        ensures faults_grow { faults self.old ≤ faults self.new };
}
