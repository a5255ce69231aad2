ghost use Rattle.std.specs.Prelude.{◌≡◌, IfSome, option_map};
ghost use Rattle.std.specs.Option.{option_copied};
ghost use Rattle.expr_syntax.specs.Shown.{shown};
ghost use Rattle.view_engine.specs.Saying.{IsView, IsNamed, member_of};

use expr_syntax::{Expr, ViewNo};
use snap_core::{ModelNo, Name};
use type_core::Types;

/// What a name is in a model.
#[derive(Clone, Copy, Debug)]
pub enum Named {
    Property,
    View(ViewNo),
}

/// What a schema says of its views.
pub trait Bodies {
    ghost use Rattle.view_engine.specs.Saying.{Saying};

    /// How contracts see it.
    ghost says: { Self → Saying };

    fn types(&self) -> &Types
        ensures { result.now ≡ (says self.now).catalog };

    /// What a name is in a model; none where the model has none of that name, or there is no such model.
    fn named(&self, m: ModelNo, name: &Name) -> Option<Named>
        ensures member { option_map member_of result ≡ (says self.now).viewing.member_of m name.now }
        ensures known { IfSome result (IsNamed (says self.now)) };

    fn body(&self, v: ViewNo) -> &Expr
        requires { IsView (says self.now) v }
        ensures { shown result.now ≡ (says self.now).viewing.body_of v };

    /// The name of a view; none where there is no such view.
    fn view_name(&self, v: ViewNo) -> Option<&Name>
        ensures { option_copied result ≡ (says self.now).name_of v };
}
