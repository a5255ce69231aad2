//! Parts of models by their names.
ghost use Rattle.std.specs.Prelude.{◌≡◌, ℕ, List, map};
ghost use Rattle.std.specs.List.{position};
ghost use Rattle.std.specs.Str.{bytes_eq};
ghost use Rattle.snap_core.specs.Value.{AreAscending};

use model_syntax::{Action, View};

/// What a model has under a name.
pub(crate) trait Named {
    /// How contracts see the name.
    ghost name_of: { Self → List ℕ };

    fn name(&self) -> &str
        ensures { result.now ≡ name_of self.now };
}

impl Named for View {
    ghost name_of = { λ v. v.name };

    fn name(&self) -> &str {
        self.name.text()
    }
}

impl Named for Action {
    ghost name_of = { λ a. a.name };

    fn name(&self) -> &str {
        self.name.text()
    }
}

/// Which of the parts has a name, looked for by halves.
pub(crate) fn position<T: Named>(parts: &[T], name: &str) -> Option<usize>
    requires { AreAscending (map T.name_of parts.now) }
    ensures { result ≡ position (λ part. bytes_eq name.now (T.name_of part)) parts.now }
{
    parts.binary_search_by(|part| part.name().cmp(name)).ok()
}
