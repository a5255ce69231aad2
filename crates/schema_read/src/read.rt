ghost use Rattle.std.specs.Prelude.{◌≡◌, None, IfOk, map};
ghost use Rattle.snap_core.specs.Value.{IsOrdered};
ghost use Rattle.snap_core.specs.View.{view};
ghost use Rattle.snap_json.specs.Loose.{loosely};
ghost use Rattle.model_syntax.specs.Shown.{behaviour_shown};
ghost use Rattle.expr_core.specs.Plain.{HavePlainConstants, HavePlainActions, HavePlainConditions};
ghost use Rattle.schema_form.specs.Form.{IsWhole};
ghost use Rattle.schema_read.specs.Schema.{Means, IsFirstOf, IsSchema, IsFirst, Spells, HasFirst};
ghost use Rattle.schema_read.specs.Refusal.{IfSyntax, IfRefused};

use crate::assemble::draft_of;
use crate::astray::{first_of, led_astray};
use crate::error::SchemaError;
use crate::shapes::model_of;
use expr_core::Schema;
use pointer_core::{Pointer, SchemaRule};
use schema_form::{Fault, FormError, Laid, SchemaForm, read_form, taken_apart};
use snap_core::Snap;
use snap_json::read_loosely;
use std::alloc::Global;
use type_draft::DraftError;

/// Reads a schema file, or names its first fault. A file that is no JSON in UTF-8, as `snap_json` reads
/// it, is `Syntax`.
///
/// Faults are looked for in three passes over the file, each in document order, which takes the keys of
/// an object in ascending order: first in form, names, repetitions and the range of the history; then
/// a root that is no model, types that lead back to themselves, identifiers and references that don't
/// stand or lead where they may, unions whose members aren't told apart, and expressions that lead to
/// no model that they may name; then defaults.
/// `schema_has_no_fault`, `first_fault_is_one` and `file_is_one_schema` say that no two of these answers
/// are right.
pub fn read_schema(alloc: Global, bytes: &[u8]) -> Result<Schema, SchemaError>
    ensures ok { IfOk result (Spells bytes.now) }
    ensures syntax { IfSyntax result (loosely bytes.now ≡ None) }
    ensures refused { IfRefused result
        (λ path rule. HasFirst bytes.now (record { path = path; rule = rule })) }
{
    match read_loosely(alloc, bytes)? {
        Some(file) => schema_in(alloc, &file),
        None => Err(SchemaError::Syntax),
    }
}

/// The schema that a file is, or its first fault.
fn schema_in(alloc: Global, file: &Snap) -> Result<Schema, SchemaError>
    requires { IsOrdered (view file.now) }
    ensures ok { IfOk result (IsSchema (view file.now)) }
    ensures syntax { IfSyntax result ⊥ }
    ensures refused { IfRefused result
        (λ path rule. IsFirst (view file.now) (record { path = path; rule = rule })) }
{
    match read_form(alloc, file) {
        Ok(form) => schema_of(alloc, form),
        Err(FormError::Memory) => Err(SchemaError::Memory),
        Err(FormError::Wrong(fault)) => Err(refused(fault)),
    }
}

/// The answer to a file with a fault.
fn refused(fault: Fault) -> SchemaError
    ensures { result ≡ SchemaError.Refused fault.path fault.rule }
{
    SchemaError::Refused {
        pointer: fault.path,
        rule: fault.rule,
    }
}

/// The schema that a form means, or its first fault.
fn schema_of(alloc: Global, form: SchemaForm) -> Result<Schema, SchemaError>
    requires whole { IsWhole form }
    requires plain { HavePlainConstants (map (λ b. (behaviour_shown b).views) form.behaviours) }
    requires plain_actions { HavePlainActions (map behaviour_shown form.behaviours) }
    requires plain_conditions { HavePlainConditions (map behaviour_shown form.behaviours) }
    ensures ok { IfOk result (Means form) }
    ensures syntax { IfSyntax result ⊥ }
    ensures refused { IfRefused result
        (λ path rule. IsFirstOf form (record { path = path; rule = rule })) }
{
    let SchemaForm {
        entries,
        expressions,
        models,
        behaviours,
        astray,
        root,
        history,
    } = form;
    let Laid { places, kinds } = taken_apart(alloc, expressions)?;
    let Some(root) = model_of(entries.as_slice(), kinds.as_slice(), root) else {
        return Err(SchemaError::Refused {
            pointer: Pointer::new(alloc).under("root")?,
            rule: SchemaRule::Target,
        });
    };
    let draft = draft_of(alloc, entries.as_slice(), models.as_slice(), kinds)?;
    match draft.finish(root) {
        Ok(types) => match astray {
            None => Ok(Schema::new(types, history, behaviours)?),
            Some(astray) => Err(refused(led_astray(models.as_slice(), astray)?)),
        },
        Err(DraftError::Memory) => Err(SchemaError::Memory),
        Err(DraftError::Wrong { t, rule }) => {
            let entries = entries.as_slice();
            let models = models.as_slice();
            let places = places.as_slice();
            let fault = first_of(alloc, entries, models, places, t, rule, astray)?;
            Err(refused(fault))
        }
    }
}
