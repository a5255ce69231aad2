//! The names that are bound.
ghost use Rattle.std.specs.Prelude.{◌≡◌, option_map};
ghost use Rattle.std.specs.Option.{option_copied};
ghost use Rattle.answer_ops.specs.View.{answer_of};
ghost use Rattle.eval_core.specs.Scope.{bound_in};
ghost use Rattle.view_engine.specs.Names.{names_of, bindings_of, body_env};

use answer_ops::Value;
use list_core::Parts;
use snap_core::Name;

/// A name and its value.
#[derive(Debug, Drop)]
pub struct Binding {
    pub name: Name,
    pub value: Value,
}

/// Names and their values, of which the last one of a name counts.
#[derive(Debug, Drop)]
pub struct Env {
    pub bindings: Parts<Binding>,
}

/// The names that are bound where an expression stands.
#[derive(Clone, Copy)]
pub enum Names<'a> {
    Listed(&'a Env),
    /// In the body of a view: `self`, and `root`.
    Body(&'a Value, &'a Value),
    /// One name more.
    Bound(&'a Name, &'a Value, &'a Names<'a>),
}

/// The value of a name.
pub fn bound<'a>(names: &'a Names<'a>, name: &str) -> Option<&'a Value>
    ensures { option_map answer_of (option_copied result) ≡ bound_in name.now (names_of names.now) }
{
    match names {
        Names::Listed(env) => listed(env, name),
        Names::Body(own, root) => in_body(own, root, name),
        Names::Bound(other, value, before) => {
            if other.text() == name {
                Some(*value)
            } else {
                bound(before, name)
            }
        }
    }
}

fn in_body<'a>(own: &'a Value, root: &'a Value, name: &str) -> Option<&'a Value>
    ensures { option_map answer_of (option_copied result) ≡ bound_in name.now (body_env (answer_of own.now) (answer_of root.now)) }
{
    match name {
        "self" => Some(own),
        "root" => Some(root),
        _ => None,
    }
}

fn listed<'a>(env: &'a Env, name: &str) -> Option<&'a Value>
    ensures { option_map answer_of (option_copied result) ≡ bound_in name.now (bindings_of env.now.bindings) }
{
    let bindings = env.bindings.as_slice();
    let mut i = bindings.len();
    while i > 0 {
        i -= 1;
        let binding = &bindings[i];
        if binding.name.text() == name {
            return Some(&binding.value);
        }
    }
    None
}
