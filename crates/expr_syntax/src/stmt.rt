use crate::expr::Expr;
use list_core::Parts;
use snap_core::Name;

/// A statement: what it does, with its parts in the order in which they are evaluated.
#[cycle(stmt)]
#[derive(Debug, Drop)]
pub enum Stmt {
    /// Sets a property of a model.
    Set(Box<Expr>, Name, Box<Expr>),
    /// Sets a key of a map, or adds it.
    Put(Box<Expr>, Box<Expr>, Box<Expr>),
    /// Adds an item at the end of an array.
    Push(Box<Expr>, Box<Expr>),
    Insert(Box<Expr>, Box<Expr>, Box<Expr>),
    Replace(Box<Expr>, Box<Expr>, Box<Expr>),
    /// Removes an item of an array, or a key of a map.
    Drop(Box<Expr>, Box<Expr>),
    Clear(Box<Expr>),
    /// Applies a snapshot to a node.
    Apply(Box<Expr>, Box<Expr>),
    Let(Name, Box<Expr>),
    If(Box<Expr>, Block, Block),
    Each(Box<Expr>, Name, Block),
    /// Runs an action on a node.
    Call(Box<Expr>, Name, Parts<Expr>),
    /// Runs the second block where the first one is refused.
    Try(Block, Block),
    /// Is refused, for a reason.
    Throw(Name),
}

/// Statements that run one after the other. What they bind is bound to the end of the block.
#[cycle(stmt)]
#[derive(Debug, Drop)]
pub struct Block {
    pub statements: Parts<Stmt>,
}
