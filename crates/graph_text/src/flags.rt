// The letters of flags.

ghost use Rattle.std.specs.Prelude.{◌≡◌, ◌++◌, OnOk};
ghost use Rattle.graph_text.specs.Parts.{flag_letters, letters_text, flags_text};

use heap_graph::{Element, Flags};
use std::alloc::AllocError;

/// Appends the letters of a node's flags, or a dash where none is set.
pub fn put_flags(text: &mut Vec<u8>, element: Element, flags: Flags) -> Result<(), AllocError>
    ensures { OnOk result (text.new.items ≡ text.old.items ++ flags_text element flags) }
{
    let start = text.len();
    put_letters(text, &letters_of(element, flags))?;
    if text.len() == start {
        text.push(b'-')?;
    }
    Ok(())
}

/// Each flag with its letter, in the order of the text.
fn letters_of(element: Element, flags: Flags) -> [(bool, u8); 8]
    ensures { result ≡ flag_letters element flags }
{
    [
        (flags.heap, b'H'),
        (flags.stack, b'S'),
        (flags.global, b'G'),
        (flags.array, b'A'),
        (flags.modified, b'M'),
        (flags.read, b'R'),
        (flags.complete, b'C'),
        (element == Element::Collapsed, b'O'),
    ]
}

/// Appends the letters of those that are set.
fn put_letters(text: &mut Vec<u8>, letters: &[(bool, u8)]) -> Result<(), AllocError>
    ensures { OnOk result (text.new.items ≡ text.old.items ++ letters_text letters.now) }
{
    for (is_set, letter) in letters {
        if *is_set {
            text.push(*letter)?;
        }
    }
    Ok(())
}
