// Flags that are set while a graph is made.

ghost use Rattle.std.specs.Prelude.{◌≡◌};
ghost use Rattle.heap_graph.specs.Memory.{flags_of};
ghost use Rattle.graph_unification.specs.Asked.{has_mark, marked, bare};

use heap_graph::Flags;

/// A flag that points set.
#[derive(Clone, Copy, Debug, PartialEq, Eq)]
pub enum Mark {
    Heap,
    Array,
    Modified,
    Read,
    Certain,
}

impl Mark {
    /// Whether it is set.
    pub(crate) fn is_set(self, flags: Flags) -> bool
        ensures { result ≡ has_mark self (flags_of flags) }
    {
        match self {
            Mark::Heap => flags.heap,
            Mark::Array => flags.array,
            Mark::Modified => flags.modified,
            Mark::Read => flags.read,
            Mark::Certain => flags.certain,
        }
    }

    /// The flags where it is set too.
    pub(crate) fn set(self, flags: Flags) -> Flags
        ensures { flags_of result ≡ marked self (flags_of flags) }
    {
        match self {
            Mark::Heap => Flags {
                heap: true,
                ..flags
            },
            Mark::Array => Flags {
                array: true,
                ..flags
            },
            Mark::Modified => Flags {
                modified: true,
                ..flags
            },
            Mark::Read => Flags {
                read: true,
                ..flags
            },
            Mark::Certain => Flags {
                certain: true,
                ..flags
            },
        }
    }
}

/// No flags.
pub(crate) fn no_flags() -> Flags
    ensures { flags_of result ≡ bare }
{
    Flags {
        heap: false,
        stack: false,
        global: false,
        array: false,
        modified: false,
        read: false,
        complete: false,
        certain: false,
    }
}
