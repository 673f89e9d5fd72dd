//! A sink in memory, which takes its room when it is made.
ghost use Rattle.std.specs.Prelude.{◌≡◌, ◌+◌, ◌-◌, ◌^◌, ◌<◌, ◌≤◌, ◌⊎◌, ◌↔◌, ◌++◌};
ghost use Rattle.std.specs.Prelude.{ℕ, false, min, List, [], Some, length, vec_capacity};
ghost use Rattle.std.specs.Prelude.{IfOk, OnOk, OnErr, IsTrue};
ghost use Rattle.rel_io.specs.Told.{Rose};
ghost use Rattle.rel_io.specs.Memory.{is_to_fail};

use crate::calls::Calls;
use crate::sink::{Sink, SinkFault};
use rel_list::{List, Memory};
use std::alloc::Global;

/// Keeps what it is given. It fails at the calls that are named when it is made, and at a piece that does
/// not fit its room, and then keeps what it had.
#[derive(Debug, Drop)]
pub struct MemSink {
    content: Vec<u8>,
    room: usize,
    calls: Calls,
    ghost has_room: { room ≤ vec_capacity content },
}

impl MemSink {
    /// Takes the room for all pieces together.
    pub fn new(alloc: Global, room: usize, fails: List<u64>) -> Result<MemSink, Memory>
        ensures empty { IfOk result (λ sink. sink.content.items ≡ []) }
        ensures room { IfOk result (λ sink. sink.room ≡ room) }
        ensures fails { IfOk result (λ sink. sink.calls.fails ≡ fails) }
        ensures made { IfOk result (λ sink. sink.calls.made ≡ 0) }
        ensures faults { IfOk result (λ sink. sink.calls.faults ≡ 0) }
    {
        let content = Vec::with_capacity(alloc, room)?;
        Ok(MemSink {
            content,
            room,
            calls: Calls::new(fails),
        })
    }

    /// The bytes put so far.
    pub fn bytes(&self) -> &[u8]
        ensures { result.now ≡ self.now.content.items }
    {
        self.content.as_slice()
    }

    fn fits(&self, piece: &[u8]) -> bool
        ensures { IsTrue result ↔ (length self.now.content.items + length piece.now ≤ self.now.room) }
    {
        self.content.len() <= self.room && piece.len() <= self.room - self.content.len()
    }
}

impl Sink for MemSink {
    ghost written = { λ sink. Some sink.content.items };

    ghost faults = { λ sink. sink.calls.faults };

    /// Takes no memory.
    fn put(&mut self, piece: &[u8]) -> Result<(), SinkFault>
        ensures appended { OnOk result (self.new.content.items ≡ self.old.content.items ++ piece.now) }
        ensures faults_stay { OnOk result (self.new.calls.faults ≡ self.old.calls.faults) }
        ensures not_to_fail { OnOk result (is_to_fail self.old.calls.fails self.old.calls.made ≡ false) }
        ensures fitted { OnOk result
            (length self.old.content.items + length piece.now ≤ self.old.room) }
        ensures unchanged { OnErr result (self.new.content.items ≡ self.old.content.items) }
        ensures failed { OnErr result (Rose self.old.calls.faults self.new.calls.faults) }
        ensures cause { OnErr result (IsTrue (is_to_fail self.old.calls.fails self.old.calls.made)
            ⊎ (self.old.room < length self.old.content.items + length piece.now)) }
        ensures faults_grow { self.old.calls.faults ≤ self.new.calls.faults }
        ensures counted { self.new.calls.made ≡ min (self.old.calls.made + 1) (2 ^ 64 - 1) }
        ensures fails_stay { self.new.calls.fails ≡ self.old.calls.fails }
        ensures room_stays { self.new.room ≡ self.old.room }
    {
        if self.calls.is_failing() || !self.fits(piece) {
            self.calls.count_fault();
            return Err(SinkFault::Failed);
        }
        match self.content.extend_from_slice(piece) {
            Ok(()) => Ok(()),
            Err(_) => {
                self.calls.count_fault();
                Err(SinkFault::Failed)
            }
        }
    }
}
