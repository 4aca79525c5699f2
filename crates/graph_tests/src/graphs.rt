// Graphs of the program, as a test wants them.

use c_typed::CType;
use heap_graph::{
    Crossing, Edge, Element, Flags, FrozenGraph, FunctionGraph, FunctionNames, Node, ProgramGraphs,
    Target,
};
use indexmap::IndexMap;
use std::alloc::{AllocError, Global};

const FIRST: Target = Target { node: 0, shift: 0 };

/// What the graphs have that may be left out.
#[derive(Clone, Copy)]
pub(crate) struct Given {
    /// The list's next element, in the graph of the function that makes it.
    pub(crate) edge: bool,
    /// The list's type, there.
    pub(crate) element: bool,
    /// That it is read, in the other's graph.
    pub(crate) read: bool,
    /// Where the list is in the other's graph.
    pub(crate) embedding: bool,
    /// That the graph of `start` has no node.
    pub(crate) empty: bool,
}

pub(crate) const ALL: Given = Given {
    edge: true,
    element: true,
    read: true,
    embedding: true,
    empty: true,
};

/// The edge to the list's next element, or none.
fn edges(alloc: Global, edge: bool) -> Result<Vec<Edge>, AllocError> {
    let mut edges = Vec::new(alloc);
    if edge {
        edges.push(Edge { slot: 0, to: FIRST })?;
    }
    Ok(edges)
}

fn list_node(
    alloc: Global,
    element: Element,
    edge: bool,
    read: bool,
    complete: bool,
) -> Result<FrozenGraph, AllocError> {
    let mut nodes = Vec::new(alloc);
    let edges = edges(alloc, edge)?;
    nodes.push(Some(Node {
        element,
        flags: Flags {
            heap: true,
            stack: false,
            global: false,
            array: false,
            modified: true,
            read,
            complete,
            certain: true,
        },
        edges,
    }))?;
    Ok(graph(alloc, nodes))
}

fn graph(alloc: Global, nodes: Vec<Option<Node>>) -> FrozenGraph {
    FrozenGraph {
        nodes,
        globals: IndexMap::new(alloc),
        literals: IndexMap::new(alloc),
    }
}

/// Targets of so many registers, but of the first ones.
fn targets(alloc: Global, count: usize, nulls: usize) -> Result<Vec<Option<Target>>, AllocError> {
    let mut list = Vec::new(alloc);
    for number in 0..count {
        list.push(if number < nulls { None } else { Some(FIRST) })?;
    }
    Ok(list)
}

fn names(
    alloc: Global,
    variables: usize,
    expressions: usize,
    returned: Option<Target>,
) -> Result<FunctionNames, AllocError> {
    let calls = if variables == 0 { 0 } else { 1 };
    Ok(FunctionNames {
        parameters: Vec::new(alloc),
        variables: targets(alloc, variables, 0)?,
        calls: targets(alloc, calls, 0)?,
        arguments: Vec::new(alloc),
        expressions: targets(alloc, expressions, 1)?,
        parameter_objects: Vec::new(alloc),
        variable_objects: Vec::new(alloc),
        returned,
    })
}

fn embeddings(
    alloc: Global,
    is_given: bool,
) -> Result<IndexMap<Crossing, IndexMap<usize, Target>>, AllocError> {
    let mut embeddings = IndexMap::new(alloc);
    if is_given {
        let mut images = IndexMap::new(alloc);
        images.insert(0, FIRST)?;
        embeddings.insert(Crossing { site: 0, called: 0 }, images)?;
    }
    Ok(embeddings)
}

fn list_maker(alloc: Global) -> Result<FunctionGraph, AllocError> {
    Ok(FunctionGraph {
        names: names(alloc, 2, 5, Some(FIRST))?,
        embeddings: IndexMap::new(alloc),
    })
}

fn list_reader(alloc: Global, embedding: bool) -> Result<FunctionGraph, AllocError> {
    Ok(FunctionGraph {
        names: names(alloc, 1, 4, None)?,
        embeddings: embeddings(alloc, embedding)?,
    })
}

fn starter(alloc: Global) -> Result<FunctionGraph, AllocError> {
    Ok(FunctionGraph {
        names: names(alloc, 0, 0, None)?,
        embeddings: IndexMap::new(alloc),
    })
}

fn function_graphs(alloc: Global, given: Given) -> Result<Vec<FunctionGraph>, AllocError> {
    let mut functions = Vec::new(alloc);
    functions.push(list_maker(alloc)?)?;
    functions.push(list_reader(alloc, given.embedding)?)?;
    Ok(functions)
}

fn group_graphs(
    alloc: Global,
    list: Element,
    given: Given,
) -> Result<Vec<FrozenGraph>, AllocError> {
    let element = if given.element {
        list
    } else {
        Element::Missing
    };
    let mut graphs = Vec::new(alloc);
    graphs.push(list_node(alloc, element, given.edge, false, false)?)?;
    graphs.push(list_node(alloc, list, true, given.read, true)?)?;
    Ok(graphs)
}

fn start_graph(alloc: Global, list: Element, empty: bool) -> Result<FrozenGraph, AllocError> {
    if empty {
        Ok(graph(alloc, Vec::new(alloc)))
    } else {
        list_node(alloc, list, true, true, true)
    }
}

pub(crate) fn graphs(
    alloc: Global,
    cell: CType,
    given: Given,
) -> Result<ProgramGraphs, AllocError> {
    let list = Element::OfType(cell);
    Ok(ProgramGraphs {
        graphs: group_graphs(alloc, list, given)?,
        functions: function_graphs(alloc, given)?,
        start: start_graph(alloc, list, given.empty)?,
        start_function: starter(alloc)?,
    })
}
