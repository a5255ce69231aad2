ghost use Rattle.std.specs.Prelude.{◌≡◌};
ghost use Rattle.snap_core.specs.View.{view, items_view};
ghost use Rattle.eval_core.specs.Answer.{same_answer, same_answers, equals_value, equal_items};
ghost use Rattle.answer_ops.specs.View.{answer_of, answers_of};

use crate::value::Value;
use snap_core::Snap;

/// Whether two answers are equal plain values, the same node, or lists that are equal item by item.
#[cycle(same)]
pub fn same(x: &Value, y: &Value) -> bool
    ensures { result ≡ same_answer (answer_of x.now) (answer_of y.now) }
{
    match (x, y) {
        (_, Value::Plain(w)) => equals_plain(x, w),
        (Value::Plain(v), Value::Several(_)) => equals_plain(y, v),
        (Value::Node(n), Value::Node(m)) => n.0 == m.0,
        (Value::Several(xs), Value::Several(ys)) => same_values(xs.as_slice(), ys.as_slice()),
        _ => false,
    }
}

#[cycle(same)]
fn same_values(xs: &[Value], ys: &[Value]) -> bool
    ensures { result ≡ same_answers (answers_of xs.now) (answers_of ys.now) }
{
    if xs.len() != ys.len() {
        return false;
    }
    for i in 0..xs.len() {
        if !same(&xs[i], &ys[i]) {
            return false;
        }
    }
    true
}

/// Whether an answer equals a plain value: several answers equal a list item by item.
#[cycle(equals)]
fn equals_plain(x: &Value, w: &Snap) -> bool
    ensures { result ≡ equals_value (answer_of x.now) (view w.now) }
{
    match (x, w) {
        (Value::Plain(v), _) => v.equal(w),
        (Value::Several(xs), Snap::List(items)) => equal_items(xs.as_slice(), items.as_slice()),
        _ => false,
    }
}

#[cycle(equals)]
fn equal_items(xs: &[Value], items: &[Snap]) -> bool
    ensures { result ≡ equal_items (answers_of xs.now) (items_view items.now) }
{
    if xs.len() != items.len() {
        return false;
    }
    for i in 0..xs.len() {
        if !equals_plain(&xs[i], &items[i]) {
            return false;
        }
    }
    true
}
