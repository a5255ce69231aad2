//! Lists of patches, all or nothing.
ghost use Rattle.std.specs.Prelude.{◌≡◌, ◌≤◌, All, IfOk};
ghost use Rattle.snap_core.specs.Value.{IsPlain};
ghost use Rattle.edit_core.specs.Logged.{before_log};
ghost use Rattle.edit_core.specs.Numbers.{AreNumbered};
ghost use Rattle.node_core.specs.View.{labelled, plain, edits_of};
ghost use Rattle.patch_core.specs.Application.{HasValue};
ghost use Rattle.patch_core.specs.Printing.{HasPlainValues};
ghost use Rattle.tree_core.specs.Answers.{Answers};
ghost use Rattle.tree_core.specs.Listing.{list_written};
ghost use Rattle.tree_core.specs.Written.{changed, tree};

use crate::folding::write_patches;
use patch_core::Patch;
use std::alloc::Global;
use tree_core::{Changed, Tree, TreeError, judge};
use type_core::Types;

/// What a list of patches makes of a tree, or the first rule that it doesn't meet. The depth is judged after each
/// patch; the weight and the identifiers once, at the end.
pub fn write_list(
    alloc: Global,
    types: &Types,
    patches: &[Patch],
    whole: &Tree,
) -> Result<Changed, TreeError>
    requires values { All HasValue patches.now }
    requires plain_values { All HasPlainValues patches.now }
    requires numbered { AreNumbered whole.now.next (labelled whole.now.root.now) }
    requires plain { IsPlain (plain whole.now.root.now) }
    ensures outcome { Answers changed result (list_written types.now patches.now (tree whole.now)) }
    ensures undone { IfOk result (λ c. before_log (edits_of c.edits) (labelled c.value) ≡ labelled whole.now.root.now) }
    ensures numbered { IfOk result (λ c. AreNumbered c.next (labelled c.value)) }
    ensures plain { IfOk result (λ c. IsPlain (plain c.value)) }
    ensures later { IfOk result (λ c. whole.now.next ≤ c.next) }
{
    let _ = types.root();
    let made = write_patches(alloc, types, patches, whole)?;
    judge(alloc, types, made)
}
