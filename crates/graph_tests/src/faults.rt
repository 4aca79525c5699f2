// The graphs that the rules give are closed, and those that lack something aren't.

ghost use Rattle.tac_ir.specs.Views.{tac_of};
ghost use Rattle.tac_ir.specs.Groups.{AreGroups};
ghost use Rattle.call_graph.specs.GroupViews.{CallsKnown, groups_of, IsOf};
ghost use Rattle.graph_tests.specs.Plain.{IsPlain};

use crate::code::program;
use crate::fitting::is_fit;
use crate::graphs::{ALL, Given, graphs};
use crate::known_calls::calls_are_known;
use call_graph::{Groups, groups};
use graph_checker::{Fault, Program, closed_fault};
use heap_graph::ProgramGraphs;
use std::alloc::{AllocError, Global};
use std::test::Fail;
use tac_ir::Tac;

fn fault(alloc: Global, given: Given) -> Result<Option<Fault>, AllocError> {
    let (tac, cell) = program(alloc)?;
    let graphs = graphs(alloc, cell, given)?;
    fault_of(alloc, &tac, &graphs)
}

fn fault_of(alloc: Global, tac: &Tac, graphs: &ProgramGraphs) -> Result<Option<Fault>, AllocError>
    requires { IsPlain tac.now }
{
    if !calls_are_known(tac) {
        return Err(AllocError);
    }
    let groups = groups(alloc, tac)?;
    fault_in(alloc, tac, &groups, graphs)
}

fn fault_in(
    alloc: Global,
    tac: &Tac,
    groups: &Groups,
    graphs: &ProgramGraphs,
) -> Result<Option<Fault>, AllocError>
    requires groups { AreGroups (tac_of tac.now) (groups_of groups.now) }
    requires of { IsOf tac.now groups.now }
    requires known { CallsKnown (tac_of tac.now) }
    requires plain { IsPlain tac.now }
{
    let program = Program {
        tac,
        groups,
        graphs,
    };
    if !is_fit(program) {
        return Err(AllocError);
    }
    closed_fault(alloc, tac, groups, graphs)
}

/// What is given of the graphs, and the fault that is found then.
struct Row {
    given: Given,
    fault: Option<Fault>,
}

const ROWS: [Row; 6] = [
    Row {
        given: ALL,
        fault: None,
    },
    Row {
        given: Given { edge: false, ..ALL },
        fault: Some(Fault { group: Some(0) }),
    },
    Row {
        given: Given {
            element: false,
            ..ALL
        },
        fault: Some(Fault { group: Some(0) }),
    },
    Row {
        given: Given { read: false, ..ALL },
        fault: Some(Fault { group: Some(1) }),
    },
    Row {
        given: Given {
            embedding: false,
            ..ALL
        },
        fault: Some(Fault { group: Some(1) }),
    },
    // another node is there
    Row {
        given: Given {
            empty: false,
            ..ALL
        },
        fault: Some(Fault { group: None }),
    },
];

#[test]
fn what_is_left_out_is_found(rt: HostRuntime) -> Result<(), Fail> {
    for (number, row) in ROWS.iter().enumerate() {
        let found = fault(rt.alloc(), row.given)?;
        assert_eq!(rt; found, row.fault, "row {number}");
    }
    Ok(())
}
