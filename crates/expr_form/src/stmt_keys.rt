//! The keys of statements: which form each stands for.
ghost use Rattle.std.specs.Prelude.{◌≡◌};
ghost use Rattle.expr_form.specs.StmtKeys as keys;

/// The forms of statements.
#[derive(Clone, Copy)]
pub enum StmtKey {
    Single(Single),
    Branches,
    Each,
    Attempt,
}

/// The forms that hold no block.
#[derive(Clone, Copy)]
pub enum Single {
    Set,
    Keyed(Keyed),
    Given(Given),
    Clear,
    Binding,
    Call,
    Throw,
}

/// The writes at a key or an index.
#[derive(Clone, Copy)]
pub enum Keyed {
    Put,
    Insert,
    Replace,
}

/// The writes that have a target and one operand more.
#[derive(Clone, Copy)]
pub enum Given {
    Push,
    Drop,
    Apply,
}

fn single_of(key: &str) -> Option<Single>
    ensures { result ≡ keys.single_of key.now }
{
    match key {
        "set" => Some(Single::Set),
        "put" => Some(Single::Keyed(Keyed::Put)),
        "insert" => Some(Single::Keyed(Keyed::Insert)),
        "replace" => Some(Single::Keyed(Keyed::Replace)),
        "push" => Some(Single::Given(Given::Push)),
        "drop" => Some(Single::Given(Given::Drop)),
        "apply" => Some(Single::Given(Given::Apply)),
        "clear" => Some(Single::Clear),
        "let" => Some(Single::Binding),
        "call" => Some(Single::Call),
        "throw" => Some(Single::Throw),
        _ => None,
    }
}

/// The form that a key stands for.
pub fn stmt_key_of(key: &str) -> Option<StmtKey>
    ensures { result ≡ keys.stmt_key_of key.now }
{
    match key {
        "if" => Some(StmtKey::Branches),
        "each" => Some(StmtKey::Each),
        "try" => Some(StmtKey::Attempt),
        _ => match single_of(key) {
            Some(single) => Some(StmtKey::Single(single)),
            None => None,
        },
    }
}
