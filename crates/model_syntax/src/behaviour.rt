use expr_syntax::{Block, Expr};
use list_core::Parts;
use snap_core::{Name, TypeNo};

/// A view: its name, and the expression that it answers.
#[derive(Debug, Drop)]
pub struct View {
    pub name: Name,
    pub body: Expr,
}

/// A parameter of an action: its name, and the number of its type.
#[derive(Debug, Drop)]
pub struct Param {
    pub name: Name,
    pub of: TypeNo,
}

/// An action: its name, its parameters in order, and what it runs.
#[derive(Debug, Drop)]
pub struct Action {
    pub name: Name,
    pub params: Parts<Param>,
    pub body: Block,
}

/// The actions that a middleware surrounds, on its model's nodes and below them.
#[derive(Debug, Drop)]
pub enum Surrounded {
    All,
    /// Those of these names, whatever models have them.
    Named(Parts<Name>),
}

/// What surrounds actions.
#[derive(Debug, Drop)]
pub enum Middleware {
    /// Takes back what an action wrote where it ends refused.
    Atomic(Surrounded),
    /// Runs an action only where a condition holds.
    Protect(Surrounded, Expr),
}

/// What a model has beside its properties. Views and actions stand by ascending names, middleware as it was declared.
#[derive(Debug, Drop)]
pub struct Behaviour {
    pub views: Parts<View>,
    pub actions: Parts<Action>,
    pub middleware: Parts<Middleware>,
}
