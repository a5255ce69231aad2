ghost use Rattle.std.specs.Prelude.{◌≡◌};
ghost use Rattle.list_core.specs.Outcome.{Gives};
ghost use Rattle.pointer_core.specs.Rule.{rule_name, rule_status};

use crate::pointer::{Pointer, Token};
use std::alloc::AllocError;

/// Why a request is refused.
#[derive(Debug, Drop)]
pub enum Rule {
    /// A body has no reading.
    Syntax,
    /// A body hasn't the form of what it is sent to.
    Shape,
    /// A text that must be a pointer is none.
    Pointer,
    /// A request's head, or what follows its body, isn't taken.
    Head,
    /// A number in a body isn't whole.
    Whole,
    /// A pointer names no place.
    Path,
    /// A route, a document, an action or a view of that name isn't there.
    Unknown,
    /// A route isn't offered with that method.
    Method,
    /// A property can't be removed.
    Operation,
    /// An index lies outside a list, or is none.
    Index,
    /// An identifier would be changed.
    Fixed,
    /// A written value holds a node that stands in the tree.
    Alive,
    /// No running action may write the node.
    Protected,
    /// A part isn't of the kind that is asked for.
    Kind,
    /// A result lies outside the values.
    Range,
    /// A node has left the tree.
    Dead,
    /// An action ended itself, for this reason.
    Thrown(Token),
    /// A request runs too many statements.
    Budget,
    /// A body evaluates too many expressions.
    Work,
    /// A condition of the middleware doesn't hold.
    Guarded,
    /// The arguments of an action aren't those that it takes.
    Arguments,
    /// Too many actions are running.
    Calls,
    /// A reference leads to no node.
    Reference,
    /// A view asks for itself.
    Cycle,
    /// Too many views are in progress.
    Deep,
    /// There is nothing to undo or to redo.
    History,
    /// A group is open, or none is.
    Group,
    /// A document of that name is there.
    Exists,
    /// No further document is taken.
    Full,
    /// A body is too long.
    Body,
    /// A value isn't one that its type takes. Its name in replies is `type`.
    Mistyped,
    /// A value doesn't meet a condition of its type.
    Refine,
    /// An entry of a map stands under another key than its identifier.
    Key,
    /// Two models of one type have the same identifier.
    Identifier,
    /// A value is too heavy or too deep.
    Large,
    /// A head has too many fields or bytes.
    Fields,
    /// Memory ran out.
    Memory,
    /// A body comes in a coding that isn't read.
    Coding,
    /// A change couldn't be stored.
    Storage,
}

impl Rule {
    /// The name of the rule in replies and messages.
    pub fn name(&self) -> &'static str
        ensures { result.now ≡ rule_name self.now }
    {
        match self {
            Rule::Syntax => "syntax",
            Rule::Shape => "shape",
            Rule::Pointer => "pointer",
            Rule::Head => "head",
            Rule::Whole => "whole",
            Rule::Path => "path",
            Rule::Unknown => "unknown",
            Rule::Method => "method",
            Rule::Operation => "operation",
            Rule::Index => "index",
            Rule::Fixed => "fixed",
            Rule::Alive => "alive",
            Rule::Protected => "protected",
            Rule::Kind => "kind",
            Rule::Range => "range",
            Rule::Dead => "dead",
            Rule::Thrown(_) => "thrown",
            Rule::Budget => "budget",
            Rule::Work => "work",
            Rule::Guarded => "guarded",
            Rule::Arguments => "arguments",
            Rule::Calls => "calls",
            Rule::Reference => "reference",
            Rule::Cycle => "cycle",
            Rule::Deep => "deep",
            Rule::History => "history",
            Rule::Group => "group",
            Rule::Exists => "exists",
            Rule::Full => "full",
            Rule::Body => "body",
            Rule::Mistyped => "type",
            Rule::Refine => "refine",
            Rule::Key => "key",
            Rule::Identifier => "identifier",
            Rule::Large => "large",
            Rule::Fields => "fields",
            Rule::Memory => "memory",
            Rule::Coding => "coding",
            Rule::Storage => "storage",
        }
    }

    /// An equal rule.
    pub fn clone_in(&self) -> Result<Rule, AllocError>
        ensures { Gives result self.now }
    {
        match self {
            Rule::Syntax => Ok(Rule::Syntax),
            Rule::Shape => Ok(Rule::Shape),
            Rule::Pointer => Ok(Rule::Pointer),
            Rule::Head => Ok(Rule::Head),
            Rule::Whole => Ok(Rule::Whole),
            Rule::Path => Ok(Rule::Path),
            Rule::Unknown => Ok(Rule::Unknown),
            Rule::Method => Ok(Rule::Method),
            Rule::Operation => Ok(Rule::Operation),
            Rule::Index => Ok(Rule::Index),
            Rule::Fixed => Ok(Rule::Fixed),
            Rule::Alive => Ok(Rule::Alive),
            Rule::Protected => Ok(Rule::Protected),
            Rule::Kind => Ok(Rule::Kind),
            Rule::Range => Ok(Rule::Range),
            Rule::Dead => Ok(Rule::Dead),
            Rule::Thrown(reason) => Ok(Rule::Thrown(reason.clone_in()?)),
            Rule::Budget => Ok(Rule::Budget),
            Rule::Work => Ok(Rule::Work),
            Rule::Guarded => Ok(Rule::Guarded),
            Rule::Arguments => Ok(Rule::Arguments),
            Rule::Calls => Ok(Rule::Calls),
            Rule::Reference => Ok(Rule::Reference),
            Rule::Cycle => Ok(Rule::Cycle),
            Rule::Deep => Ok(Rule::Deep),
            Rule::History => Ok(Rule::History),
            Rule::Group => Ok(Rule::Group),
            Rule::Exists => Ok(Rule::Exists),
            Rule::Full => Ok(Rule::Full),
            Rule::Body => Ok(Rule::Body),
            Rule::Mistyped => Ok(Rule::Mistyped),
            Rule::Refine => Ok(Rule::Refine),
            Rule::Key => Ok(Rule::Key),
            Rule::Identifier => Ok(Rule::Identifier),
            Rule::Large => Ok(Rule::Large),
            Rule::Fields => Ok(Rule::Fields),
            Rule::Memory => Ok(Rule::Memory),
            Rule::Coding => Ok(Rule::Coding),
            Rule::Storage => Ok(Rule::Storage),
        }
    }

    /// The HTTP status of a reply that names the rule.
    pub fn status(&self) -> u16
        ensures { result ≡ rule_status self.now }
    {
        match self {
            Rule::Syntax | Rule::Shape | Rule::Pointer | Rule::Head | Rule::Whole => 400,
            Rule::Path | Rule::Unknown => 404,
            Rule::Method => 405,
            Rule::Operation
            | Rule::Index
            | Rule::Fixed
            | Rule::Alive
            | Rule::Protected
            | Rule::Kind
            | Rule::Range
            | Rule::Dead
            | Rule::Thrown(_)
            | Rule::Budget
            | Rule::Work
            | Rule::Guarded
            | Rule::Arguments
            | Rule::Calls
            | Rule::Reference
            | Rule::Cycle
            | Rule::Deep
            | Rule::History
            | Rule::Group
            | Rule::Exists
            | Rule::Full => 409,
            Rule::Body => 413,
            Rule::Mistyped | Rule::Refine | Rule::Key | Rule::Identifier | Rule::Large => 422,
            Rule::Fields => 431,
            Rule::Memory => 500,
            Rule::Coding => 501,
            Rule::Storage => 503,
        }
    }
}

/// A rule that wasn't met, and the place where.
#[derive(Debug, Drop)]
pub struct Refusal {
    pub path: Pointer,
    pub rule: Rule,
}

impl Refusal {
    /// An equal refusal, which takes its memory from where this one does.
    pub fn clone_in(&self) -> Result<Refusal, AllocError>
        ensures { Gives result self.now }
    {
        Ok(Refusal {
            path: self.path.clone_in()?,
            rule: self.rule.clone_in()?,
        })
    }
}
