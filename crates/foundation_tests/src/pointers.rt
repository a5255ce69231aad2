use pointer_core::{Pointer, Refusal, Rule, SchemaRule};
use snap_core::Txt;
use std::test::Fail;

#[test]
fn refusals_have_texts(rt: HostRuntime) -> Result<(), Fail> {
    let alloc = rt.alloc();
    let path = Pointer::parse(alloc, "/a~1b/0")?;
    let refusal = Refusal {
        path: path.clone_in()?,
        rule: Rule::Mistyped,
    };
    let copy = refusal.clone_in()?;
    assert_eq!(rt; format!(in alloc; "{copy}")?.as_str(), "type at /a~1b/0");
    let refusal = Refusal {
        path: Pointer::new(alloc),
        rule: Rule::Thrown(Txt::copy(alloc, "stop")?),
    };
    let copy = refusal.clone_in()?;
    assert_eq!(rt; format!(in alloc; "{copy}")?.as_str(), "thrown at the root");
    assert!(rt; copy.path.is_root() && !path.is_root());
    assert_eq!(rt;
        format!(in alloc; "{}", SchemaRule::Target)?.as_str(),
        "target"
    );
    Ok(())
}
