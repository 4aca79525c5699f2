//! The outside as traits: sources, sinks and files, whose calls may fail.
#![tactic(auto)]

ghost use Rattle.std.specs.Prelude.{◌≡◌, ℕ, ◌<◌, ◌≤◌, ◌^◌, List, Option, length, take, IfOk, OnOk, OnErr};
ghost use Rattle.pcc_outside.specs.Outside.{Rose, Takes, Adds, Told, Gives, Reaches};

pub mod bytes;
mod counts;
pub mod host;
pub mod memory;
pub mod whole;

pub use bytes::{read_byte, write_byte};
pub use host::{HostFiles, StdSink, StdSource};
pub use memory::{MemFiles, MemSink, MemSource, NullSink};
pub use whole::{ReadErr, read_all, write_all};

/// A call on the outside failed. It took and added nothing.
#[derive(Clone, Copy, Debug, PartialEq, Eq)]
pub struct Failed;

/// Where input comes from.
pub trait Source {
    /// What is left to read, where the source tells it.
    ghost left: { Self → Option (List ℕ) };

    /// How many calls have failed.
    ghost faults: { Self → ℕ };

    /// Takes a prefix of what is left into the front of `buf`, and says how many bytes; 0 only where nothing is left.
    fn read(&mut self, buf: &mut [u8]) -> Result<usize, Failed>
        requires { 0 < length buf.old }
        ensures takes { IfOk result (λ n. Takes (left self.old) (take n buf.new) (left self.new)) }
        ensures within { IfOk result (λ n. n ≤ length buf.old) }
        ensures unread { OnErr result (left self.new ≡ left self.old) }
        ensures fault { OnErr result (Rose (faults self.old) (faults self.new)) }
        ensures faultless { OnOk result (faults self.new ≡ faults self.old) }
        ensures counted { faults self.old ≤ faults self.new };
}

/// Where output goes.
pub trait Sink {
    /// What is written, where the sink tells it.
    ghost written: { Self → Option (List ℕ) };

    /// How many calls have failed.
    ghost faults: { Self → ℕ };

    /// Adds a prefix of `piece` that isn't empty, and says how many bytes.
    fn write(&mut self, piece: &[u8]) -> Result<usize, Failed>
        requires { 0 < length piece.now }
        ensures adds { IfOk result (λ n. Adds (written self.old) (take n piece.now) (written self.new)) }
        ensures within { IfOk result (λ n. (0 < n) × (n ≤ length piece.now)) }
        ensures unwritten { OnErr result (written self.new ≡ written self.old) }
        ensures fault { OnErr result (Rose (faults self.old) (faults self.new)) }
        ensures faultless { OnOk result (faults self.new ≡ faults self.old) }
        ensures counted { faults self.old ≤ faults self.new };
}

/// Where files are found by name.
pub trait Files {
    /// What is told of each name.
    ghost contents: { Self → List ℕ → Told };

    /// How many calls under each name have failed.
    ghost faults: { Self → List ℕ → ℕ };

    /// How far into the file of each name bytes were given: the place behind the furthest.
    ghost reach: { Self → List ℕ → ℕ };

    /// Reads bytes of the file `name` from the place `at` on into the front of `buf`, and says how many; 0 only at or
    /// past the file's end. A missing file is a failure. The counts of other names may rise too, since an
    /// implementation may keep one for all names.
    fn read_at(&mut self, name: &str, at: u64, buf: &mut [u8]) -> Result<usize, Failed>
        requires room { 0 < length buf.old }
        requires near { at ≤ 2 ^ 40 }
        ensures gives { IfOk result (λ n. Gives (contents self.old name.now) at (take n buf.new)) }
        ensures within { IfOk result (λ n. n ≤ length buf.old) }
        ensures reached { IfOk result (λ n. Reaches at n (reach self.old name.now) (reach self.new name.now)) }
        ensures unreached { OnErr result (reach self.new name.now ≡ reach self.old name.now) }
        ensures fault { OnErr result (Rose (faults self.old name.now) (faults self.new name.now)) }
        ensures faultless { OnOk result ((other : List ℕ) → faults self.new other ≡ faults self.old other) }
        ensures counted { (other : List ℕ) → faults self.old other ≤ faults self.new other }
        ensures further { (other : List ℕ) → reach self.old other ≤ reach self.new other }
        ensures kept { (other : List ℕ) → contents self.new other ≡ contents self.old other };
}
