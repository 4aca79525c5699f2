// The instructions on pools: they concern the innermost function and the pools.

ghost use Rattle.std.specs.Prelude.{◌≡◌, ◌+◌, ◌^◌, ◌<◌};
ghost use Rattle.std.specs.List.{AllByRecursion};
ghost use Rattle.image_form.specs.Form.{IsKind};
ghost use Rattle.pool_isa.specs.Machine.{fits_kind, next_start};
ghost use Rattle.machine.specs.Heaps.{heap_of};

use crate::activation::Activation;
use crate::ends::{RunEnd, Step};
use crate::heap::Heap;
use image_form::PoolKind;
use pool_isa::Instr;
use pool_runtime::{AllocEnd, PoolId};
use run_theory::TrapKind;

/// Whether an allocation in a pool of a kind may have so many bytes: any in a mixed one.
fn fits_kind(kind: PoolKind, bytes: u64) -> bool
    ensures { result ≡ fits_kind kind bytes }
{
    match kind {
        PoolKind::Homogeneous { source, .. } => bytes == 0 || bytes == source,
        PoolKind::Mixed => true,
    }
}

impl Activation {
    ghost use Rattle.machine.specs.Promises.{PoolsAnywhere, PoolsWithKinds};

    /// Makes a pool, where the function may hold one more operand, and pushes its number.
    pub(crate) fn make_pool(
        &mut self,
        heap: &mut Heap,
        kinds: &[PoolKind],
        height: u32,
        kind: u64,
    ) -> Step
        requires next { self.old.place + 1 < 2 ^ 64 }
        requires kinds { AllByRecursion IsKind kinds.now }
        ensures performs { PoolsWithKinds kinds.now height (Instr.PoolInit kind) self.old (heap_of heap.old) result self.new (heap_of heap.new) }
        ensures frame { next_start self.new ≡ next_start self.old }
        ensures start { self.new.start ≡ self.old.start }
    {
        let Some(kind) = kinds.get(kind as usize) else {
            return Step::trap(TrapKind::Reached);
        };
        if self.is_full(height) {
            return Step::trap(TrapKind::StackFull);
        }
        match self.push_pool(heap, *kind) {
            Ok(()) => Step::On,
            Err(_) => Step::Over(RunEnd::OutOfMemory),
        }
    }

    /// Destroys a pool.
    pub(crate) fn destroy_pool(&mut self, heap: &mut Heap) -> Step
        requires { self.old.place + 1 < 2 ^ 64 }
        ensures performs { PoolsAnywhere Instr.PoolDestroy self.old (heap_of heap.old) result self.new (heap_of heap.new) }
        ensures frame { next_start self.new ≡ next_start self.old }
        ensures start { self.new.start ≡ self.old.start }
    {
        let Some(pool) = self.last() else {
            return Step::trap(TrapKind::StackEmpty);
        };
        let id = PoolId(pool);
        if !heap.pools.lives(id) {
            return Step::trap(TrapKind::BadPool);
        }
        heap.destroy(id);
        self.discard(1);
        Step::On
    }

    /// Places an object in a pool, and leaves its address.
    pub(crate) fn allocate(&mut self, heap: &mut Heap) -> Step
        requires { self.old.place + 1 < 2 ^ 64 }
        ensures performs { PoolsAnywhere Instr.PoolAlloc self.old (heap_of heap.old) result self.new (heap_of heap.new) }
        ensures frame { next_start self.new ≡ next_start self.old }
        ensures start { self.new.start ≡ self.old.start }
    {
        let Some((pool, bytes)) = self.last_two() else {
            return Step::trap(TrapKind::StackEmpty);
        };
        let id = PoolId(pool);
        let Some(kind) = heap.pools.kind(id) else {
            return Step::trap(TrapKind::BadPool);
        };
        if !fits_kind(kind, bytes) {
            return Step::trap(TrapKind::BadSize);
        }
        match heap.place(id, bytes) {
            Ok(address) => {
                self.combine(address);
                Step::On
            }
            Err(AllocEnd::HeapExhausted) => Step::Over(RunEnd::HeapExhausted),
            Err(AllocEnd::IndexExhausted) => Step::Over(RunEnd::IndexExhausted),
            Err(AllocEnd::OutOfMemory) => Step::Over(RunEnd::OutOfMemory),
        }
    }

    /// Frees an object of a pool; address 0 is of none.
    pub(crate) fn free(&mut self, heap: &mut Heap) -> Step
        requires { self.old.place + 1 < 2 ^ 64 }
        ensures performs { PoolsAnywhere Instr.PoolFree self.old (heap_of heap.old) result self.new (heap_of heap.new) }
        ensures frame { next_start self.new ≡ next_start self.old }
        ensures start { self.new.start ≡ self.old.start }
    {
        let Some((pool, address)) = self.last_two() else {
            return Step::trap(TrapKind::StackEmpty);
        };
        let id = PoolId(pool);
        if !heap.pools.lives(id) {
            return Step::trap(TrapKind::BadPool);
        }
        if address != 0 && !heap.free(id, address) {
            return Step::trap(TrapKind::BadFree);
        }
        self.discard(2);
        Step::On
    }
}
