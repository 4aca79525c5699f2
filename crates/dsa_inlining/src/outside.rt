// What is known of functions outside a group.

ghost use Rattle.std.specs.Prelude.{◌≡◌, None};
ghost use Rattle.tac_ir.specs.Views.{tac_of};
ghost use Rattle.call_graph.specs.GroupViews.{IsOf};
ghost use Rattle.dsa_inlining.specs.Before.{graphs_before};
ghost use Rattle.dsa_inlining.specs.Sums as S;
ghost use Rattle.dsa_inlining.specs.Tallies.{is_apart};

use crate::before::Before;

/// Whether a number is that of a function outside the group.
pub(crate) fn is_apart(before: Before<'_>, group: Option<usize>, called: usize) -> bool
    requires { IsOf before.tac.now before.groups.now }
    ensures { result ≡ is_apart (tac_of before.entry.tac.now) (S.outside_of (graphs_before before.entry) group) called }
{
    match before.groups.group_of.get(called) {
        Some(own) => match group {
            Some(group) => *own != group,
            None => true,
        },
        None => false,
    }
}

/// How many nodes escape a function.
pub(crate) fn escaping(before: Before<'_>, called: usize) -> usize
    ensures { result ≡ (S.outside_of (graphs_before before.entry) None).escaping called }
{
    match before.escaping.get(called) {
        Some(numbers) => numbers.len(),
        None => 0,
    }
}
