// Cells, which hold targets: whatever has a target names a cell, so that a node is renamed where cells point to it.

ghost use Rattle.std.specs.Prelude.{◌≡◌};
ghost use Rattle.graph_unification.specs.Cells.{moved_cell, flat_cell, changed_at, changed_all};

use heap_graph::Target;

/// Lets all of some cells that point to a node point to another, in which its slots lie behind so many others.
#[tactic(none)]
pub(crate) fn rename(
    cells: &mut Vec<Target>,
    numbers: &[usize],
    gone: usize,
    kept: usize,
    distance: u64,
)
    ensures { cells.new.items ≡ changed_all (moved_cell gone kept distance) numbers.now cells.old.items }
{
    for number in numbers {
        rename_one(cells, *number, gone, kept, distance);
    }
}

/// Lets a cell that points to a node point to another.
#[tactic(none)]
fn rename_one(cells: &mut Vec<Target>, number: usize, gone: usize, kept: usize, distance: u64)
    ensures { cells.new.items ≡ changed_at (moved_cell gone kept distance) number cells.old.items }
{
    match cells.get(number) {
        Some(target) => {
            let moved = moved(*target, gone, kept, distance);
            cells[number] = moved;
        }
        None => {}
    }
}

/// Lets all of some cells that point to a node point to its first slot.
#[tactic(none)]
pub(crate) fn flatten(cells: &mut Vec<Target>, numbers: &[usize], node: usize)
    ensures { cells.new.items ≡ changed_all (flat_cell node) numbers.now cells.old.items }
{
    for number in numbers {
        flatten_one(cells, *number, node);
    }
}

/// Lets a cell that points to a node point to its first slot.
#[tactic(none)]
fn flatten_one(cells: &mut Vec<Target>, number: usize, node: usize)
    ensures { cells.new.items ≡ changed_at (flat_cell node) number cells.old.items }
{
    match cells.get(number) {
        Some(target) => {
            let flat = flattened(*target, node);
            cells[number] = flat;
        }
        None => {}
    }
}

/// Where a target is once a node lies in another.
fn moved(target: Target, gone: usize, kept: usize, distance: u64) -> Target
    ensures { result ≡ moved_cell gone kept distance target }
{
    if target.node == gone {
        Target {
            node: kept,
            shift: target.shift.saturating_add(distance),
        }
    } else {
        target
    }
}

/// Where a target is once a node has one slot.
fn flattened(target: Target, node: usize) -> Target
    ensures { result ≡ flat_cell node target }
{
    if target.node == node {
        Target { node, shift: 0 }
    } else {
        target
    }
}
