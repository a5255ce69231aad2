//! A schema, as views are evaluated by it.
ghost use Rattle.std.specs.Prelude.{◌≡◌};
ghost use Rattle.expr_core.specs.Schema.{Schema};

use expr_core::Schema;
use expr_syntax::{Expr, ViewNo};
use snap_core::{ModelNo, Name};
use type_core::Types;
use view_engine::{Bodies, Named};

/// A schema, as views are evaluated by it.
#[derive(Drop)]
pub struct Viewed<'a> {
    pub schema: &'a Schema,
}

impl Bodies for Viewed<'_> {
    ghost use Rattle.schema_views.specs.Saying.{saying};

    ghost says = { λ viewed. saying viewed.schema.now };

    fn types(&self) -> &Types {
        self.schema.types()
    }

    fn named(&self, m: ModelNo, name: &Name) -> Option<Named> {
        if self.schema.types().property_type(m, name.text()).is_some() {
            return Some(Named::Property);
        }
        Some(Named::View(self.schema.view(m, name.text())?))
    }

    fn body(&self, v: ViewNo) -> &Expr {
        self.schema.body(v)
    }

    fn view_name(&self, v: ViewNo) -> Option<&Name> {
        self.schema.view_name(v)
    }
}
