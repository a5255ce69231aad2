ghost use Rattle.std.specs.Prelude.{IfOk};
ghost use Rattle.snap_core.specs.Value.{AreKeyed};
ghost use Rattle.snap_core.specs.View.{fields_view};

use list_core::Parts;
use snap_core::{Field, Fields, Snap, Txt, find, position};
use std::alloc::{AllocError, Global};
use std::test::Fail;

fn text(alloc: Global, text: &str) -> Result<Snap, AllocError> {
    Ok(Snap::Text(Txt::copy(alloc, text)?))
}

fn field(alloc: Global, key: &str, value: Snap) -> Result<Field, AllocError> {
    Ok(Field {
        key: Txt::copy(alloc, key)?,
        value,
    })
}

// `{"done":false,"id":"t9","owner":null,"title":"z"}`
fn todo(alloc: Global, title: &str) -> Result<Snap, AllocError> {
    let mut fields = Parts::new(alloc);
    fields.push(field(alloc, "done", Snap::Bool(false))?)?;
    fields.push(field(alloc, "id", text(alloc, "t9")?)?)?;
    fields.push(field(alloc, "owner", Snap::Null)?)?;
    fields.push(field(alloc, "title", text(alloc, title)?)?)?;
    Ok(Snap::Dict(fields))
}

fn list_of(alloc: Global, item: Snap) -> Result<Snap, AllocError> {
    let mut items = Parts::new(alloc);
    items.push(item)?;
    Ok(Snap::List(items))
}

#[test]
fn copies_are_equal(rt: HostRuntime) -> Result<(), Fail> {
    let alloc = rt.alloc();
    let value = todo(alloc, "z")?;
    assert!(rt; value.equal(&value.clone_in(alloc)?));
    assert!(rt; !value.equal(&todo(alloc, "y")?));
    assert!(rt; !value.equal(&list_of(alloc, Snap::Int(1))?));
    let mut other = Txt::new(alloc);
    other.push('é')?;
    other.push_str("a")?;
    assert_eq!(rt; other.clone_in()?.text(), "éa");
    assert_eq!(rt; other.len(), 3);
    assert_eq!(rt; Txt::from_string("éa".to_string(alloc)?).text(), "éa");
    Ok(())
}

// `{"id":7}`
fn numbered(alloc: Global) -> Result<Fields, AllocError>
    ensures { IfOk result (λ fields. AreKeyed (fields_view fields)) }
{
    let mut fields = Parts::new(alloc);
    fields.push(field(alloc, "id", Snap::Int(7))?)?;
    Ok(fields)
}

#[test]
fn values_are_found_by_their_keys(rt: HostRuntime) -> Result<(), Fail> {
    let fields = numbered(rt.alloc())?;
    match find(fields.as_slice(), "id") {
        Some(value) => assert!(rt; value.equal(&Snap::Int(7))),
        None => assert!(rt; false),
    }
    assert_eq!(rt; position(fields.as_slice(), "id"), Some(0));
    assert!(rt; find(fields.as_slice(), "").is_none());
    assert!(rt; find(fields.as_slice(), "name").is_none());
    Ok(())
}
