//! Views of the nodes at places.
ghost use Rattle.std.specs.Prelude.{◌≡◌, ◌<◌, IfSome, option_map};
ghost use Rattle.expr_core.specs.Schema.{view_count, views_of};
ghost use Rattle.live_tree.specs.Contents.{state};
ghost use Rattle.schema_views.specs.Locating.{view_there, asked_of};

use edit_core::Kind;
use expr_core::Schema;
use expr_syntax::ViewNo;
use live_tree::Tree;
use snap_core::NodeNo;
use tree_core::Place;
use tree_reading::Held;

/// A view of a node.
#[derive(Clone, Copy, Debug)]
pub struct ViewOf {
    pub node: NodeNo,
    pub view: ViewNo,
}

/// The view of a name of the model node at a place; none where no model node is there, or its model has no view of that
/// name. References aren't followed.
pub fn view_at(tree: &Tree, schema: &Schema, place: &Place, name: &str) -> Option<ViewOf>
    ensures there { option_map asked_of result ≡ view_there schema.now.types (views_of schema.now) name.now place.now (state tree.now).tree }
    ensures known { IfSome result (λ of. of.view.0 < view_count schema.now) }
{
    let Some(Held::Node(node)) = tree.held(schema.types(), place) else {
        return None;
    };
    let Some(Kind::Model(m)) = tree.kind(node) else {
        return None;
    };
    let view = schema.view(m, name)?;
    Some(ViewOf { node, view })
}
