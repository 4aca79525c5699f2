ghost use Rattle.std.specs.Prelude.{◌≡◌, IfOk};
ghost use Rattle.stack_code.specs.Units.{unit_function};

use image_form::MachineLimits;
use pool_isa::Instr;
use pool_linker::link;
use slab_space::PoolKind;
use stack_code::{Unit, Units};
use std::alloc::{AllocError, Global};
use std::test::Fail;

// A pool of numbered cells.
const CELLS: PoolKind = PoolKind::Homogeneous {
    source: 12,
    cell: 12,
    indexed: true,
};

fn unit(alloc: Global, code: &[Instr]) -> Result<Unit, AllocError>
    ensures { IfOk result (λ unit. unit_function unit ≡ record { parameters = 0; extra = 8; height = 2; signature = 0; code = code.now }) }
{
    Ok(Unit {
        parameters: 0,
        extra: 8,
        height: 2,
        signature: 0,
        code: Vec::from_slice(alloc, code)?,
    })
}

// The first two kinds are equal, so that the third one's number is 1; zeros at the end of the contents are left out.
const LINKED: &str = "Image { version: 1, limits: MachineLimits { slabs: 16, index: 1000 }, \
    globals: Globals { size: 8, contents: [0, 7] }, \
    kinds: [Homogeneous { source: 12, cell: 12, indexed: true }, Mixed], functions: [\
    Function { parameters: 0, extra: 8, height: 2, signature: 0, \
    code: [PoolInit(1), Call(1), Return] }, \
    Function { parameters: 0, extra: 8, height: 2, signature: 0, \
    code: [PoolInit(0), PoolInit(0), Trap] }] }";

#[test]
fn equal_kinds_have_one_number(rt: HostRuntime) -> Result<(), Fail> {
    let alloc = rt.alloc();
    let start = unit(alloc, &[Instr::PoolInit(2), Instr::Call(1), Instr::Return])?;
    let main = unit(
        alloc,
        &[Instr::PoolInit(1), Instr::PoolInit(0), Instr::Trap],
    )?;
    let units = Units {
        functions: vec![in alloc; start, main]?,
        kinds: Vec::from_slice(alloc, &[CELLS, CELLS, PoolKind::Mixed])?,
        globals: 8,
        contents: Vec::from_slice(alloc, &[0, 7, 0, 0])?,
    };
    let limits = MachineLimits {
        slabs: 16,
        index: 1000,
    };
    let image = link(alloc, units, limits)?;
    let text = format!(in alloc; "{image:?}")?;
    assert_eq!(rt; text.as_str(), LINKED);
    Ok(())
}
