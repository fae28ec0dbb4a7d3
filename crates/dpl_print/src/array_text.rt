// What is printed of the array in a slot: its elements, in the order of its domain.
// A slot without an array holds one that has no elements.

ghost use Rattle.std.specs.Prelude.{◌≡◌, ◌++◌, OnOk};
ghost use Rattle.dpl_contents.specs.Kinds.{kind_of};
ghost use Rattle.dpl_print.specs.Texts.{array_text};

use dpl_contents::{ElementKind, print_array};
use dpl_frame::Frame;
use dpl_tree::ScalarKind;
use std::alloc::AllocError;

// What the words of an array stand for.
fn element_kind(kind: ScalarKind) -> ElementKind
    ensures { kind_of result ≡ kind }
{
    match kind {
        ScalarKind::Int => ElementKind::Int,
        ScalarKind::Bool => ElementKind::Truth,
    }
}

/// Appends the elements of the array in a slot.
///
/// # Errors
/// Out of memory for what is printed.
pub(crate) fn show_array(
    kind: ScalarKind,
    slot: usize,
    frame: &Frame,
    out: &mut Vec<u8>,
) -> Result<(), AllocError>
    ensures { OnOk result (out.new.items ≡ out.old.items ++ array_text kind slot frame.now.memory) }
{
    match frame.array(slot) {
        Some(array) => {
            // Nothing is read here: that no index is listed twice is a clause of these calls.
            let _ = array.domain().domain();
            print_array(element_kind(kind), array, out)
        }
        None => Ok(()),
    }
}
