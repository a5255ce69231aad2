ghost use Rattle.std.specs.Prelude.{◌≡◌};
ghost use Rattle.pointer_core.specs.Rule.{schema_rule_name};

/// Why a schema is refused.
#[derive(Clone, Copy, Debug, PartialEq, Eq)]
pub enum SchemaRule {
    /// A value hasn't the form of a schema's part, or a number isn't whole.
    Shape,
    /// A text that must be a name isn't, is taken or isn't known; or a type leads back to itself with no
    /// list, record or model between.
    Name,
    /// A name or a text stands twice where it may stand once.
    Twice,
    /// An action has too many parameters, a repeated one, or one of a type that no argument has.
    Arguments,
    /// An expression or a block of statements nests too deep.
    Depth,
    /// The length of the history isn't in its range.
    History,
    /// An identifier's type isn't directly that of a property, or is the second one of its model.
    Identifier,
    /// The root isn't a model, a reference leads to no model with an identifier, or a safe reference stands
    /// where it can't be cleared.
    Target,
    /// The members of a union aren't told apart, or one is of a kind that no union takes.
    Union,
    /// A default isn't made by its type, or is too heavy or too deep, or making it needs itself.
    Default,
}

impl SchemaRule {
    /// The name of the rule in messages.
    pub fn name(self) -> &'static str
        ensures { result.now ≡ schema_rule_name self }
    {
        match self {
            SchemaRule::Shape => "shape",
            SchemaRule::Name => "name",
            SchemaRule::Twice => "twice",
            SchemaRule::Arguments => "arguments",
            SchemaRule::Depth => "depth",
            SchemaRule::History => "history",
            SchemaRule::Identifier => "identifier",
            SchemaRule::Target => "target",
            SchemaRule::Union => "union",
            SchemaRule::Default => "default",
        }
    }
}
