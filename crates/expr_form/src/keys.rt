//! The keys of expressions: which form each stands for.
ghost use Rattle.std.specs.Prelude.{◌≡◌};
ghost use Rattle.expr_form.specs.Keys as keys;

/// The forms of expressions that are an object with one key.
#[derive(Clone, Copy)]
pub enum Key {
    Aim(Aim),
    Group(Group),
}

/// The forms that speak of a model.
#[derive(Clone, Copy)]
pub enum Aim {
    /// The node of a model with an identifier.
    Find,
    /// Whether a node is of a model.
    Is,
}

/// The forms that speak of no model, in groups by what stands under their key.
#[derive(Clone, Copy)]
pub enum Group {
    Leaf(Leaf),
    One(One),
    Pair(Pair),
    Triple(Triple),
    List,
    Make,
}

/// The forms of two parts.
#[derive(Clone, Copy)]
pub enum Pair {
    Two(Two),
    Named(Named),
}

/// The forms of three parts.
#[derive(Clone, Copy)]
pub enum Triple {
    Walk(Walk),
    Choice,
    Binding,
}

/// The forms that hold no expression.
#[derive(Clone, Copy)]
pub enum Leaf {
    Const,
    Var,
    Own,
}

/// The forms of one expression.
#[derive(Clone, Copy)]
pub enum One {
    Size,
    Keys,
    Items,
    Text,
    Not,
    Snapshot,
    Path,
}

/// The forms of two expressions.
#[derive(Clone, Copy)]
pub enum Two {
    Item,
    Has,
    Add,
    Sub,
    Mul,
    Div,
    Mod,
    Concat,
    Eq,
    Lt,
    And,
    Or,
}

/// The forms of an expression and the name of a property.
#[derive(Clone, Copy)]
pub enum Named {
    Get,
    Ref,
}

/// The forms that bind a name to each walked value.
#[derive(Clone, Copy)]
pub enum Walk {
    Filter,
    Collect,
    All,
    Any,
    Sum,
}

fn leaf_of(key: &str) -> Option<Leaf>
    ensures { result ≡ keys.leaf_of key.now }
{
    match key {
        "const" => Some(Leaf::Const),
        "var" => Some(Leaf::Var),
        "own" => Some(Leaf::Own),
        _ => None,
    }
}

fn one_of(key: &str) -> Option<One>
    ensures { result ≡ keys.one_of key.now }
{
    match key {
        "size" => Some(One::Size),
        "keys" => Some(One::Keys),
        "items" => Some(One::Items),
        "text" => Some(One::Text),
        "not" => Some(One::Not),
        "snapshot" => Some(One::Snapshot),
        "path" => Some(One::Path),
        _ => None,
    }
}

fn two_of(key: &str) -> Option<Two>
    ensures { result ≡ keys.two_of key.now }
{
    match key {
        "item" => Some(Two::Item),
        "has" => Some(Two::Has),
        "add" => Some(Two::Add),
        "sub" => Some(Two::Sub),
        "mul" => Some(Two::Mul),
        "div" => Some(Two::Div),
        "mod" => Some(Two::Mod),
        "concat" => Some(Two::Concat),
        "eq" => Some(Two::Eq),
        "lt" => Some(Two::Lt),
        "and" => Some(Two::And),
        "or" => Some(Two::Or),
        _ => None,
    }
}

fn walk_of(key: &str) -> Option<Walk>
    ensures { result ≡ keys.walk_of key.now }
{
    match key {
        "filter" => Some(Walk::Filter),
        "collect" => Some(Walk::Collect),
        "all" => Some(Walk::All),
        "any" => Some(Walk::Any),
        "sum" => Some(Walk::Sum),
        _ => None,
    }
}

/// The forms of an expression and a name, and those that are the only ones of their kind.
fn other_of(key: &str) -> Option<Group>
    ensures { result ≡ keys.other_of key.now }
{
    match key {
        "get" => Some(Group::Pair(Pair::Named(Named::Get))),
        "ref" => Some(Group::Pair(Pair::Named(Named::Ref))),
        "if" => Some(Group::Triple(Triple::Choice)),
        "let" => Some(Group::Triple(Triple::Binding)),
        "list" => Some(Group::List),
        "make" => Some(Group::Make),
        _ => None,
    }
}

/// The group of the form that a key stands for.
fn group_of(key: &str) -> Option<Group>
    ensures { result ≡ keys.group_of key.now }
{
    if let Some(leaf) = leaf_of(key) {
        return Some(Group::Leaf(leaf));
    }
    if let Some(one) = one_of(key) {
        return Some(Group::One(one));
    }
    if let Some(two) = two_of(key) {
        return Some(Group::Pair(Pair::Two(two)));
    }
    if let Some(walk) = walk_of(key) {
        return Some(Group::Triple(Triple::Walk(walk)));
    }
    other_of(key)
}

/// The form that a key stands for.
pub fn key_of(key: &str) -> Option<Key>
    ensures { result ≡ keys.key_of key.now }
{
    if key == "find" {
        return Some(Key::Aim(Aim::Find));
    }
    if key == "is" {
        return Some(Key::Aim(Aim::Is));
    }
    match group_of(key) {
        Some(group) => Some(Key::Group(group)),
        None => None,
    }
}
