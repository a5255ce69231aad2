/// An operator on values. `Text`, `Not` and `Size` have one operand, the others two.
#[derive(Clone, Copy, Debug, PartialEq, Eq)]
pub enum Op {
    Add,
    Sub,
    Mul,
    /// The quotient, rounded towards zero.
    Div,
    /// The rest of a division, with the sign of the dividend.
    Mod,
    /// Two texts joined.
    Concat,
    /// An integer's decimal text.
    Text,
    Eq,
    /// Whether an integer is below another, or a text comes before another by its bytes.
    Lt,
    Not,
    /// The part of a list at an index, or of a record under a key.
    Item,
    /// Whether a record has a key.
    Has,
    /// How many parts a list or a record has, or how many Unicode scalar values a text has.
    Size,
}
