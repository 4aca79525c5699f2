// Graphs that were worked out by hand, by the rules of merging.

use crate::scenes::Deed::{Chain, Collapse, Edge, Merge, MergeChain, Name, Node, SetFlags};
use crate::scenes::Kind::{Collapsed, Missing, Type};
use crate::scenes::Named::{Copy, Global, Literal, Register};
use crate::scenes::Place::{At, Beside, Of};
use crate::scenes::Step::{Certain, Do, See};
use crate::scenes::{NONE, Step, first_wrong};
use crate::sights::Sight;
use crate::sights::Sight::{EdgeAt, Globals, Literals, NodeCount, Part, Target};
use crate::types::{Row, build};
use c_num::IntType;
use heap_graph::Flags;
use std::test::Fail;

const INT: usize = 0;

const LONG: usize = 1;

const TO_INT: usize = 2;

const TO_LONG: usize = 3;
/// struct { int; int *; }
const INNER: usize = 4;
/// INNER[3]
const ROW: usize = 5;
/// struct { long; ROW; }
const OUTER: usize = 6;
/// struct { OUTER; INNER; }
const DEEP: usize = 7;
/// struct { int; INNER; }
const NESTED: usize = 8;
/// struct { int *; int *; }
const POINTERS: usize = 9;
/// struct { int *; int; }
const MIXED: usize = 10;

const TYPES: [Row; 11] = [
    Row::Integer(IntType::Int),
    Row::Integer(IntType::Long),
    Row::Pointer(INT),
    Row::Pointer(LONG),
    Row::Pair(b'a', INT, TO_INT),
    Row::Array(INNER, 3),
    Row::Pair(b'b', LONG, ROW),
    Row::Pair(b'c', OUTER, INNER),
    Row::Pair(b'd', INT, INNER),
    Row::Pair(b'e', TO_INT, TO_INT),
    Row::Pair(b'f', TO_INT, INT),
];

const HEAP: Flags = Flags { heap: true, ..NONE };

const MODIFIED: Flags = Flags {
    modified: true,
    ..NONE
};

const HEAP_MODIFIED: Flags = Flags {
    modified: true,
    ..HEAP
};

const CERTAIN: Flags = Flags {
    certain: true,
    ..NONE
};

/// What is done to an empty graph, and what is to be seen.
struct Scene {
    name: &'static str,
    steps: &'static [Step],
}

const SCENES: [Scene; 7] = [
    Scene {
        name: "parts of a type",
        steps: &[
            See(Part(DEEP, 0, DEEP, true)),
            See(Part(DEEP, 0, OUTER, true)),
            See(Part(DEEP, 0, LONG, true)),
            See(Part(DEEP, 1, ROW, true)),
            See(Part(DEEP, 1, INNER, true)),
            See(Part(DEEP, 1, INT, true)),
            See(Part(DEEP, 2, TO_LONG, true)),
            See(Part(DEEP, 3, INNER, true)),
            See(Part(DEEP, 2, INNER, false)),
            See(Part(DEEP, 4, INNER, false)),
            See(Part(DEEP, 5, TO_INT, false)),
            See(Part(DEEP, 0, INT, false)),
        ],
    },
    Scene {
        name: "a list is merged",
        steps: &[
            Do(Node(Missing, HEAP)),
            Do(Node(Type(INNER), MODIFIED)),
            Do(Node(Missing, NONE)),
            Do(Name(Register(0), At(0, 0))),
            Do(Name(Register(1), At(2, 0))),
            Do(Name(Register(2), At(1, 1))),
            Do(Merge(At(0, 0), At(1, 0))),
            Do(Edge(Of(2), Of(1))),
            Do(Merge(Of(0), Of(1))),
            See(Target(1, Of(0))),
            See(Target(2, Beside(0, 1))),
            See(Target(0, Beside(0, 0))),
            See(Sight::Edge(Beside(0, 1), Some(Of(0)))),
            See(Sight::Edge(Beside(0, 0), None)),
            See(EdgeAt(Of(0), 0, Some((1, Of(0))))),
            See(EdgeAt(Of(0), 1, None)),
            See(Sight::Node(Of(0), Some((Type(INNER), HEAP_MODIFIED)))),
            // a flag is set without merging
            Do(SetFlags(Of(0), NONE)),
            See(Sight::Node(Of(0), Some((Type(INNER), NONE)))),
            See(NodeCount(3)),
        ],
    },
    Scene {
        name: "nested structures are merged",
        // the member begins at slot 1, so its slot 1 is slot 2
        steps: &[
            Do(Node(Type(NESTED), NONE)),
            Do(Node(Type(INNER), NONE)),
            Do(Node(Missing, NONE)),
            Do(Node(Type(INT), NONE)),
            Do(Edge(At(1, 1), At(2, 0))),
            Do(Edge(At(0, 2), At(3, 0))),
            Do(Name(Register(0), At(1, 1))),
            Do(Name(Register(1), At(2, 0))),
            Do(Merge(At(0, 2), At(1, 1))),
            See(Target(0, At(0, 2))),
            See(Sight::Edge(At(0, 2), Some(Of(1)))),
            See(Sight::Node(Of(1), Some((Type(INT), NONE)))),
            See(Sight::Edge(At(0, 1), None)),
            See(Sight::Node(At(1, 0), None)),
        ],
    },
    Scene {
        name: "nodes collapse",
        steps: &[
            Do(Node(Type(POINTERS), NONE)),
            Do(Node(Type(MIXED), NONE)),
            Do(Node(Type(INT), NONE)),
            Do(Node(Type(INT), NONE)),
            Do(Node(Type(POINTERS), NONE)),
            Do(Edge(At(0, 0), At(2, 0))),
            Do(Edge(At(0, 1), At(3, 0))),
            Do(Name(Register(0), At(0, 1))),
            Do(Name(Register(1), At(1, 1))),
            Do(Name(Register(2), At(2, 0))),
            Do(Name(Register(3), At(3, 0))),
            Do(Merge(At(0, 0), At(1, 0))),
            // two slots of one node
            Do(Merge(At(4, 0), At(4, 1))),
            Do(Collapse(Of(2))),
            See(Target(0, Of(1))),
            See(Target(2, Of(3))),
            See(Target(0, Beside(0, 0))),
            See(Sight::Node(Of(0), Some((Collapsed, NONE)))),
            See(Sight::Edge(Beside(0, 0), Some(Of(2)))),
            See(EdgeAt(Of(0), 1, None)),
            See(Sight::Node(At(4, 0), Some((Collapsed, NONE)))),
        ],
    },
    Scene {
        name: "a chain becomes one node",
        steps: &[
            Do(Chain(65_536)),
            Do(MergeChain(65_536)),
            See(Target(0, Of(65_535))),
        ],
    },
    Scene {
        name: "what became certain is told once",
        steps: &[
            Do(Node(Missing, NONE)),
            Do(Node(Missing, CERTAIN)),
            Do(Node(Missing, NONE)),
            Do(Name(Register(0), At(0, 0))),
            Do(Name(Register(1), At(1, 0))),
            Do(Name(Register(2), At(2, 0))),
            Certain(None),
            Do(Merge(Of(0), Of(1))),
            Certain(Some(0)),
            Certain(None),
            Do(SetFlags(At(2, 0), CERTAIN)),
            Certain(Some(2)),
            Do(SetFlags(At(2, 0), CERTAIN)),
            Do(Merge(Of(2), Of(0))),
            Certain(None),
        ],
    },
    Scene {
        name: "variables outside functions and literals are listed",
        steps: &[
            Do(Node(Missing, NONE)),
            Do(Name(Global(7), At(0, 0))),
            Do(Name(Register(7), At(0, 0))),
            Do(Name(Literal(3), At(0, 0))),
            Do(Name(Copy(5), At(0, 0))),
            Do(Name(Global(2), At(0, 0))),
            Do(Name(Global(7), At(0, 0))),
            See(Globals(&[7, 2])),
            See(Literals(&[3])),
        ],
    },
];

#[test]
fn graphs_are_as_the_rules_say(rt: HostRuntime) -> Result<(), Fail> {
    let alloc = rt.alloc();
    let types = build(alloc, &TYPES)?;
    for scene in &SCENES {
        let wrong = first_wrong(alloc, &types, scene.steps)?;
        assert_eq!(rt; wrong, None, "{}", scene.name);
    }
    Ok(())
}
