ghost use Rattle.std.specs.Prelude.{◌≡◌, ◌+◌};
ghost use Rattle.expr_syntax.specs.Shown.{shown, form_shown};

use crate::steps::Steps;
use list_core::Parts;
use snap_core::{ModelNo, Name, Snap, Txt};
use std::sync::ledger::Ledger;

/// An expression. What stands in it is seen by `look` alone.
#[cycle(expr)]
#[derive(Debug, Drop)]
pub struct Expr {
    form: Form,
}

/// What stands in an expression: one form, with its parts in the order in which they are evaluated.
#[cycle(expr)]
#[derive(Debug, Drop)]
pub enum Form {
    /// A value that stands for itself.
    Const(Snap),
    Var(Name),
    /// A property or a view of `self`.
    Own(Name),
    /// A property or a view of a model, or a field of a record.
    Get(Box<Expr>, Name),
    /// The identifier that a reference property holds.
    Ref(Box<Expr>, Name),
    Item(Box<Expr>, Box<Expr>),
    Has(Box<Expr>, Box<Expr>),
    Size(Box<Expr>),
    Keys(Box<Expr>),
    Items(Box<Expr>),
    Filter(Box<Expr>, Name, Box<Expr>),
    Collect(Box<Expr>, Name, Box<Expr>),
    All(Box<Expr>, Name, Box<Expr>),
    Any(Box<Expr>, Name, Box<Expr>),
    Sum(Box<Expr>, Name, Box<Expr>),
    Add(Box<Expr>, Box<Expr>),
    Sub(Box<Expr>, Box<Expr>),
    Mul(Box<Expr>, Box<Expr>),
    Div(Box<Expr>, Box<Expr>),
    Mod(Box<Expr>, Box<Expr>),
    Concat(Box<Expr>, Box<Expr>),
    Text(Box<Expr>),
    Eq(Box<Expr>, Box<Expr>),
    Lt(Box<Expr>, Box<Expr>),
    Not(Box<Expr>),
    And(Box<Expr>, Box<Expr>),
    Or(Box<Expr>, Box<Expr>),
    If(Box<Expr>, Box<Expr>, Box<Expr>),
    Let(Name, Box<Expr>, Box<Expr>),
    List(Parts<Expr>),
    /// A record. Its keys ascend where it was read from a schema file.
    Make(Parts<Entry>),
    Snapshot(Box<Expr>),
    Path(Box<Expr>),
    /// The node of a model with an identifier.
    Find(ModelNo, Box<Expr>),
    Is(Box<Expr>, ModelNo),
}

/// One entry of the record that `Form::Make` gives.
#[cycle(expr)]
#[derive(Debug, Drop)]
pub struct Entry {
    pub key: Txt,
    pub value: Expr,
}

impl Expr {
    /// The expression of a form.
    pub fn of(form: Form) -> Expr
        ensures { shown result ≡ form_shown form }
    {
        Expr { form }
    }

    /// What stands in the expression. Each look counts one step.
    pub fn look<L: Ledger>(&self, steps: &mut Steps<L>) -> &Form
        ensures form { form_shown result.now ≡ shown self.now }
        ensures tick { steps.new ≡ steps.old + 1 }
    {
        steps.tick();
        &self.form
    }
}
