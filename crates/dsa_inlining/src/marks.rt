// Marks of numbers.

ghost use Rattle.std.specs.Prelude.{◌≡◌, ◌==◌, length};
ghost use Rattle.call_graph.specs.RowLists.{is_among};
ghost use Rattle.dsa_inlining.specs.Counting.{count_below};
ghost use Rattle.dsa_inlining.specs.Marks.{is_marked, AddsMarks};

/// Marks a number, where it has a mark.
pub(crate) fn mark(marks: &mut Vec<bool>, number: usize)
    ensures { AddsMarks (λ other. number == other) marks.old.items marks.new.items }
{
    if number < marks.len() {
        marks[number] = true;
    }
}

/// Marks these numbers, where they have marks.
pub(crate) fn mark_all(marks: &mut Vec<bool>, numbers: &[usize])
    ensures { AddsMarks (λ number. is_among number numbers.now) marks.old.items marks.new.items }
{
    for number in numbers {
        mark(marks, *number);
    }
}

/// How many numbers are marked.
pub(crate) fn marked(marks: &[bool]) -> usize
    ensures { result ≡ count_below (length marks.now) (is_marked marks.now) }
{
    let mut count = 0;
    for mark in marks {
        if *mark {
            count += 1;
        }
    }
    count
}
