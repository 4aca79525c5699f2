//! Sources, sinks and files in memory. Their calls fail where they are told to.

ghost use Rattle.std.specs.Prelude.{◌≡◌, ℕ, ◌+◌, ◌-◌, ◌^◌, ◌<◌, ◌≤◌, ◌↔◌, ◌⊎◌, min, List, [], length, take, Some, None, Ok, IfSome, IfNone, IfOk, OnOk, OnErr, IsErr, IsTrue};
ghost use Rattle.pcc_outside.specs.Outside.{Rose, Takes, Adds, Missing, Holds, Gives, Reaches};
ghost use Rattle.pcc_outside.specs.Memory.{uncalled, one_more, IsNextDue, OneCall, files_of, file_of};

use crate::counts::{further, raised};
use crate::{Failed, Files, Sink, Source};
use std::alloc::{AllocError, Global};
use std::collections::BTreeMap;
use std::marker::Model;

/// Counts calls, and knows which of them are to fail.
#[derive(Drop)]
struct Calls {
    failing: Vec<u64>,
    made: u64,
    failed: u64,
}

impl Model for Calls {
    ghost use Rattle.pcc_outside.specs.Memory.{CallCounts};

    ghost Value = { CallCounts };

    ghost view = { λ c. record { failing = c.failing.items; made = c.made; failed = c.failed } };
}

impl Calls {
    fn new(failing: Vec<u64>) -> Self
        ensures { result ≡ uncalled failing.items }
    {
        Calls {
            failing,
            made: 0,
            failed: 0,
        }
    }

    /// Counts a call, and says whether it is to fail.
    fn next_is_due(&mut self) -> bool
        ensures due { IsTrue result ↔ IsNextDue self.old }
        ensures called { OneCall self.old self.new }
        ensures failed { self.new.failed ≡ self.old.failed }
    {
        self.made = raised(self.made);
        self.failing.contains(&self.made)
    }

    /// Counts a failure.
    fn fail(&mut self) -> Failed
        ensures failed { self.new.failed ≡ one_more self.old.failed }
        ensures rose { Rose self.old.failed self.new.failed }
        ensures counted { self.old.failed ≤ self.new.failed }
        ensures made { self.new.made ≡ self.old.made }
        ensures failing { self.new.failing ≡ self.old.failing }
    {
        self.failed = raised(self.failed);
        Failed
    }
}

/// Copies the front of `from` into the front of `buf`, at most `most` bytes of it, and says how many.
fn copy_front(from: &[u8], buf: &mut [u8], most: usize) -> usize
    ensures count { result ≡ min (min most (length buf.old)) (length from.now) }
    ensures copied { take result buf.new ≡ take result from.now }
{
    let n = most.min(buf.len()).min(from.len());
    buf[..n].copy_from_slice(&from[..n]);
    n
}

/// Bytes in memory to read.
#[derive(Drop)]
pub struct MemSource {
    bytes: Vec<u8>,
    taken: usize,
    piece: usize,
    calls: Calls,
}

impl Model for MemSource {
    ghost use Rattle.std.specs.Prelude.{◌<◌, ◌≤◌, drop, length};
    ghost use Rattle.pcc_outside.specs.Memory.{SourceState};

    ghost Value = { SourceState };

    ghost view = { λ s. record { left = drop s.taken s.bytes.items; piece = s.piece; calls = s.calls } };

    ghost invariant = { λ s. (s.taken ≤ length s.bytes.items) × (0 < s.piece) };
}

impl MemSource {
    /// A source of `bytes` that gives at most `piece` of them in a call. `failing` holds the numbers of the calls that
    /// are to fail, counted from 1.
    pub fn new(bytes: Vec<u8>, failing: Vec<u64>, piece: usize) -> Self
        requires { 0 < piece }
        ensures { result ≡ record { left = bytes.items; piece = piece; calls = uncalled failing.items } }
    {
        MemSource {
            bytes,
            taken: 0,
            piece,
            calls: Calls::new(failing),
        }
    }

    /// The bytes that are left.
    pub fn left(&self) -> &[u8]
        ensures { result.now ≡ self.now.left }
    {
        &self.bytes[self.taken..]
    }
}

impl Source for MemSource {
    ghost left = { λ s. Some s.left };

    ghost faults = { λ s. s.calls.failed };

    fn read(&mut self, buf: &mut [u8]) -> Result<usize, Failed>
        requires { 0 < length buf.old }
        ensures takes { IfOk result (λ n. Takes (Some self.old.left) (take n buf.new) (Some self.new.left)) }
        ensures within { IfOk result (λ n. n ≤ length buf.old) }
        ensures unread { OnErr result (Some self.new.left ≡ Some self.old.left) }
        ensures fault { OnErr result (Rose self.old.calls.failed self.new.calls.failed) }
        ensures faultless { OnOk result (self.new.calls.failed ≡ self.old.calls.failed) }
        ensures counted { self.old.calls.failed ≤ self.new.calls.failed }

        ensures due { IsErr result ↔ IsNextDue self.old.calls }
        ensures count { IfOk result (λ n. n ≡ min (min self.old.piece (length buf.old)) (length self.old.left)) }
        ensures called { OneCall self.old.calls self.new.calls }
        ensures same_piece { self.new.piece ≡ self.old.piece }
    {
        if self.calls.next_is_due() {
            return Err(self.calls.fail());
        }
        let n = copy_front(self.left(), buf, self.piece);
        self.taken += n;
        Ok(n)
    }
}

/// Room in memory to write to.
#[derive(Drop)]
pub struct MemSink {
    bytes: Vec<u8>,
    room: usize,
    piece: usize,
    calls: Calls,
}

impl Model for MemSink {
    ghost use Rattle.std.specs.Prelude.{◌<◌, ◌≤◌, length, vec_capacity};
    ghost use Rattle.pcc_outside.specs.Memory.{SinkState};

    ghost Value = { SinkState };

    ghost view = { λ s. record { written = s.bytes.items; room = s.room; piece = s.piece; calls = s.calls } };

    ghost invariant = { λ s. (length s.bytes.items ≤ s.room) × (s.room ≤ vec_capacity s.bytes) × (0 < s.piece) };
}

impl MemSink {
    /// A sink with room for `room` bytes, which is made now, that takes at most `piece` bytes in a call. A call that
    /// finds no room left fails. `failing` holds the numbers of the calls that are to fail besides, counted from 1.
    pub fn new(
        alloc: Global,
        room: usize,
        failing: Vec<u64>,
        piece: usize,
    ) -> Result<Self, AllocError>
        requires { 0 < piece }
        ensures { IfOk result (λ s. s ≡ record { written = []; room = room; piece = piece; calls = uncalled failing.items }) }
    {
        let bytes = Vec::with_capacity(alloc, room)?;
        Ok(MemSink {
            bytes,
            room,
            piece,
            calls: Calls::new(failing),
        })
    }

    /// The bytes that were written.
    pub fn bytes(&self) -> &[u8]
        ensures { result.now ≡ self.now.written }
    {
        self.bytes.as_slice()
    }
}

impl Sink for MemSink {
    ghost written = { λ s. Some s.written };

    ghost faults = { λ s. s.calls.failed };

    fn write(&mut self, piece: &[u8]) -> Result<usize, Failed>
        requires { 0 < length piece.now }
        ensures adds { IfOk result (λ n. Adds (Some self.old.written) (take n piece.now) (Some self.new.written)) }
        ensures within { IfOk result (λ n. (0 < n) × (n ≤ length piece.now)) }
        ensures unwritten { OnErr result (Some self.new.written ≡ Some self.old.written) }
        ensures fault { OnErr result (Rose self.old.calls.failed self.new.calls.failed) }
        ensures faultless { OnOk result (self.new.calls.failed ≡ self.old.calls.failed) }
        ensures counted { self.old.calls.failed ≤ self.new.calls.failed }

        ensures due { IsErr result ↔ (IsNextDue self.old.calls ⊎ (self.old.room ≤ length self.old.written)) }
        ensures count { IfOk result (λ n. n ≡ min (min self.old.piece (length piece.now)) (self.old.room - length self.old.written)) }
        ensures in_room { length self.new.written ≤ self.new.room }
        ensures called { OneCall self.old.calls self.new.calls }
        ensures same_room { self.new.room ≡ self.old.room }
        ensures same_piece { self.new.piece ≡ self.old.piece }
    {
        let free = self.room - self.bytes.len();
        if self.calls.next_is_due() || free == 0 {
            return Err(self.calls.fail());
        }
        let n = self.piece.min(piece.len()).min(free);
        match self.bytes.extend_from_slice(&piece[..n]) {
            Ok(()) => Ok(n),
            Err(_) => unreachable!(),
        }
    }
}

/// A sink that drops what is written to it, and never fails.
#[derive(Clone, Copy, Debug, Default)]
pub struct NullSink;

impl Sink for NullSink {
    ghost written = { λ _. None };

    ghost faults = { λ _. 0 };

    fn write(&mut self, piece: &[u8]) -> Result<usize, Failed>
        requires { 0 < length piece.now }
        ensures all { result ≡ Ok (length piece.now) }
    {
        Ok(piece.len())
    }
}

/// Files in memory. It keeps one count of failures and one reach for all names.
#[derive(Drop)]
pub struct MemFiles {
    files: BTreeMap<String, Vec<u8>>,
    calls: Calls,
    reach: u64,
}

impl Model for MemFiles {
    ghost use Rattle.pcc_outside.specs.Memory.{FilesState, files_of};

    ghost Value = { FilesState };

    ghost view = { λ f. record { files = files_of f.files; reach = f.reach; calls = f.calls } };
}

impl MemFiles {
    /// The files of a map from names to bytes. `failing` holds the numbers of the calls that are to fail, counted from 1.
    pub fn new(files: BTreeMap<String, Vec<u8>>, failing: Vec<u64>) -> Self
        ensures { result ≡ record { files = files_of files; reach = 0; calls = uncalled failing.items } }
    {
        MemFiles {
            files,
            calls: Calls::new(failing),
            reach: 0,
        }
    }
}

fn find<'a>(files: &'a BTreeMap<String, Vec<u8>>, name: &str) -> Option<&'a Vec<u8>>
    ensures found { IfSome result (λ file. file_of (files_of files.now) name.now ≡ Holds file.now.items) }
    ensures missing { IfNone result (file_of (files_of files.now) name.now ≡ Missing) }
{
    files.get(name)
}

/// Copies the bytes of a file from the place `at` on into the front of `buf`, and says how many.
fn copy_from(file: &[u8], at: u64, buf: &mut [u8]) -> usize
    requires { 0 < length buf.old }
    ensures gives { Gives (Holds file.now) at (take result buf.new) }
    ensures within { result ≤ length buf.old }
{
    let start = (at as usize).min(file.len());
    copy_front(&file[start..], buf, usize::MAX)
}

impl Files for MemFiles {
    ghost contents = { λ f name. file_of f.files name };

    ghost faults = { λ f _. f.calls.failed };

    ghost reach = { λ f _. f.reach };

    fn read_at(&mut self, name: &str, at: u64, buf: &mut [u8]) -> Result<usize, Failed>
        requires room { 0 < length buf.old }
        requires near { at ≤ 2 ^ 40 }
        ensures gives { IfOk result (λ n. Gives (file_of self.old.files name.now) at (take n buf.new)) }
        ensures within { IfOk result (λ n. n ≤ length buf.old) }
        ensures reached { IfOk result (λ n. Reaches at n self.old.reach self.new.reach) }
        ensures unreached { OnErr result (self.new.reach ≡ self.old.reach) }
        ensures fault { OnErr result (Rose self.old.calls.failed self.new.calls.failed) }
        ensures faultless { OnOk result ((other : List ℕ) → self.new.calls.failed ≡ self.old.calls.failed) }
        ensures counted { (other : List ℕ) → self.old.calls.failed ≤ self.new.calls.failed }
        ensures further { (other : List ℕ) → self.old.reach ≤ self.new.reach }
        ensures kept { (other : List ℕ) → file_of self.new.files other ≡ file_of self.old.files other }

        ensures due { IsErr result ↔ (IsNextDue self.old.calls ⊎ (file_of self.old.files name.now ≡ Missing)) }
        ensures called { OneCall self.old.calls self.new.calls }
        ensures same_files { self.new.files ≡ self.old.files }
    {
        if self.calls.next_is_due() {
            return Err(self.calls.fail());
        }
        let n = match find(&self.files, name) {
            Some(file) => copy_from(file, at, buf),
            None => return Err(self.calls.fail()),
        };
        self.reach = further(self.reach, at, n);
        Ok(n)
    }
}
