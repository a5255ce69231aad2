//! The values whose texts are the bodies of replies.
ghost use Rattle.std.specs.Prelude.{◌≡◌, [], ◌∷◌, ◌++◌, map, codes, IfOk, IfErr, OnOk};
ghost use Rattle.std.specs.Option.{option_copied};
ghost use Rattle.list_core.specs.Outcome.{Gives};
ghost use Rattle.snap_core.specs.Value.{text, list};
ghost use Rattle.snap_core.specs.View.{view, entry, parts_of};
ghost use Rattle.pointer_core.specs.Rule.{rule_name};
ghost use Rattle.patch_core.specs.Inverse.{inverse_of};
ghost use Rattle.host_replies.specs.Replies as replies;

use list_core::Parts;
use patch_core::{PatchError, Patches, inverse, print_patches};
use pointer_core::{Pointer, Refusal, Rule};
use snap_core::{Field, Fields, Snap, Txt};
use std::alloc::{AllocError, Global};

/// A record of one entry.
pub fn only(alloc: Global, key: &str, value: Snap) -> Result<Snap, AllocError>
    ensures { IfOk result (λ made. view made ≡ replies.only key.now (view value)) }
{
    let mut fields = Parts::new(alloc);
    push(alloc, &mut fields, key, value)?;
    Ok(Snap::Dict(fields))
}

fn push(alloc: Global, fields: &mut Fields, key: &str, value: Snap) -> Result<(), AllocError>
    ensures { OnOk result (map entry fields.new ≡ map entry fields.old ++ (key.now, view value) ∷ []) }
{
    fields.push(Field {
        key: Txt::copy(alloc, key)?,
        value,
    })
}

/// The record that names a rule.
pub fn rule_body(alloc: Global, rule: &Rule) -> Result<Snap, AllocError>
    ensures { IfOk result (λ body. view body ≡ replies.only (codes "error") (text (rule_name rule.now))) }
{
    let name = Txt::copy(alloc, rule.name())?;
    only(alloc, "error", Snap::Text(name))
}

/// The record that names a rule and a place, and the reason that an action gave.
pub fn place_body(alloc: Global, refusal: &Refusal) -> Result<Snap, AllocError>
    ensures { IfOk result (λ body. view body ≡ replies.place_body refusal.now.rule refusal.now.path) }
{
    let name = Txt::copy(alloc, refusal.rule.name())?;
    let path = refusal.path.print()?;
    let mut fields = Parts::new(alloc);
    push(alloc, &mut fields, "error", Snap::Text(name))?;
    push(alloc, &mut fields, "path", Snap::Text(path))?;
    push_reason(alloc, &mut fields, &refusal.rule)?;
    Ok(Snap::Dict(fields))
}

// The reason, where an action ended itself.
fn push_reason(alloc: Global, fields: &mut Fields, rule: &Rule) -> Result<(), AllocError>
    ensures { OnOk result (map entry fields.new ≡ map entry fields.old ++ replies.reason_of rule.now) }
{
    match rule {
        Rule::Thrown(reason) => push(alloc, fields, "reason", Snap::Text(reason.clone_in()?)),
        _ => Ok(()),
    }
}

/// The list of some texts, which it takes over.
pub fn list_of_texts(alloc: Global, texts: Vec<Txt>) -> Result<Snap, AllocError>
    ensures { IfOk result (λ shown. view shown ≡ list tt (parts_of (map text texts.items))) }
{
    let mut items = Parts::new(alloc);
    for name in texts {
        items.push(Snap::Text(name))?;
    }
    Ok(Snap::List(items))
}

/// A pointer's text, and null for none.
pub fn node_value(target: Option<&Pointer>) -> Result<Snap, AllocError>
    ensures { IfOk result (λ shown. view shown ≡ replies.node_value (option_copied target.entry)) }
{
    match target {
        Some(path) => Ok(Snap::Text(path.print()?)),
        None => Ok(Snap::Null),
    }
}

/// The record of a change.
pub fn change_body(alloc: Global, patches: &Patches) -> Result<Snap, PatchError>
    ensures body { IfOk result (λ body. view body ≡ replies.change_body patches.now) }
    ensures memory { IfErr result (λ error. error ≡ PatchError.Memory) }
{
    let mut fields = Parts::new(alloc);
    push_change(alloc, &mut fields, patches)?;
    Ok(Snap::Dict(fields))
}

/// The record of a refused action that kept patches.
pub fn refused_change_body(
    alloc: Global,
    refusal: &Refusal,
    patches: &Patches,
) -> Result<Snap, PatchError>
    ensures body { IfOk result (λ body. view body ≡ replies.refused_change_body refusal.now.rule refusal.now.path patches.now) }
    ensures memory { IfErr result (λ error. error ≡ PatchError.Memory) }
{
    let name = Txt::copy(alloc, refusal.rule.name())?;
    let path = refusal.path.print()?;
    let mut fields = Parts::new(alloc);
    push(alloc, &mut fields, "error", Snap::Text(name))?;
    push_change(alloc, &mut fields, patches)?;
    push(alloc, &mut fields, "path", Snap::Text(path))?;
    push_reason(alloc, &mut fields, &refusal.rule)?;
    Ok(Snap::Dict(fields))
}

// The inverses and the patches of a change.
fn push_change(alloc: Global, fields: &mut Fields, patches: &Patches) -> Result<(), PatchError>
    ensures change { OnOk result (map entry fields.new ≡ map entry fields.old ++ replies.change_of patches.now) }
    ensures memory { IfErr result (λ error. error ≡ PatchError.Memory) }
{
    let inverse = print_patches(alloc, &inverses(alloc, patches)?)?;
    let patches = print_patches(alloc, patches)?;
    push(alloc, fields, "inverse", inverse)?;
    push(alloc, fields, "patches", patches)?;
    Ok(())
}

// The inverse of each patch, in the same order.
fn inverses(alloc: Global, patches: &Patches) -> Result<Patches, PatchError>
    ensures inverses { Gives result (map inverse_of patches.now) }
    ensures memory { IfErr result (λ error. error ≡ PatchError.Memory) }
{
    let mut inverses = Patches::new(alloc);
    for patch in patches.as_slice() {
        inverses.push(inverse(alloc, patch)?)?;
    }
    Ok(inverses)
}
