//! What each exit status tells of a run: laws that follow from how a run ends.
ghost use Rattle.std.specs.Prelude.{◌≡◌, ◌⊎◌, ℕ, List, None, IsTrue, codes};
ghost use Rattle.http_front.specs.Request.{Request};
ghost use Rattle.expr_core.specs.Schema.{Schema};
ghost use Rattle.edge_core.specs.World.{WorldHasFailed, Gets};
ghost use Rattle.edge_core.specs.Door.{DoorHasFailed};
ghost use Rattle.serve_core.specs.declared.plan.ServeEnd.TheVariants as end;
ghost use Rattle.top_call.specs.declared.exit.Exit as declared;
ghost use Rattle.top_call.specs.Report.{Tells};
ghost use Rattle.top_call.specs.Run.{Run, Ends, IsRun, IsServing, IsCheck, IfSchemaFile, IsTooLong, IsSchemaFile, IsServed, EndsInside, FailedToAttach, Refuses, NamesFile, NamesNoFile, SchemaIsGiven, RequestsAreGiven, AreReplied};

use crate::answering::Answerer;
use schema_read::{file_is_one_schema, schema_has_no_fault};
use serve_core::{door_completes, ends_have_causes};

/// The cause of each status, and what is told.
pub fn statuses_have_causes()
    // 2 only where the words are no command, and such words come to nothing else, unless it can't be told.
    ensures usage { (r : Run) (status : ℕ) → Ends r status → status ≡ 2 → r.command ≡ None }
    ensures no_command { (r : Run) (status : ℕ) → Ends r status
        → r.command ≡ None → (status ≡ 2) ⊎ (status ≡ 10) }
    // 3 only where the world counted a fault, or the file is too long.
    ensures unread { (r : Run) (status : ℕ) → Ends r status
        → status ≡ 3 → WorldHasFailed r.world_before r.world_after ⊎ IfSchemaFile r IsTooLong }
    // 4 only where the file is short enough, and is no JSON or has a first fault; the message says which.
    ensures refused { (r : Run) (status : ℕ) → Ends r status → status ≡ 4 → Refuses r }
    // 0 of a check only where the file is a schema, and then `ok` is written, alone.
    ensures checked { (r : Run) (status : ℕ) → Ends r status → IsCheck r.command
        → status ≡ 0 → IfSchemaFile r IsSchemaFile }
    ensures ok { (r : Run) (status : ℕ) → Ends r status → IsCheck r.command → status ≡ 0
        → (r.world_after.err ≡ r.world_before.err)
        × Gets (codes "ok\n") r.world_before.out r.world_after.out }
    // 0 and 9 of a command that serves only where the door was served to that end, which says what was
    // written to each link. Nothing else is written.
    ensures done { (r : Run) (status : ℕ) → Ends r status → IsServing r.command
        → status ≡ 0 → IsServed r end.Done }
    ensures inside { (r : Run) (status : ℕ) → Ends r status
        → status ≡ 9 → IsRun r.command × IsServed r end.Inside }
    ensures attached { (r : Run) (status : ℕ) → Ends r status → IsServing r.command
        → (status ≡ 0) ⊎ (status ≡ 9) → IsTrue r.door_after.is_attached }
    ensures silent { (r : Run) (status : ℕ) → Ends r status → IsServing r.command → status ≡ 0
        → (r.world_after.err ≡ r.world_before.err) × (r.world_after.out ≡ r.world_before.out) }
    // 9 only where the input ends inside a request, behind requests that got their replies.
    ensures cut_inside { (r : Run) (status : ℕ) → Ends r status → status ≡ 9 → EndsInside r }
    // 6 only where the door's count rose.
    ensures door_failed { (r : Run) (status : ℕ) → Ends r status
        → status ≡ 6 → DoorHasFailed r.door_before r.door_after × IsServed r end.Fault }
    // Where the door isn't attached in the end, 6 is that attaching failed where the command says.
    ensures attach_failed { (r : Run) (status : ℕ) → Ends r status
        → status ≡ 6 → ¬ (IsTrue r.door_after.is_attached) → FailedToAttach r }
    // 7 is free: the door is as it was, or a link that was due a reply got the fixed one.
    ensures memory { (r : Run) (status : ℕ) → Ends r status
        → status ≡ 7 → (r.door_after ≡ r.door_before) ⊎ IsServed r end.Memory }
    // 10 only where the world counted a fault; every other status is told whole.
    ensures unwritten { (r : Run) (status : ℕ) → Ends r status
        → status ≡ 10 → WorldHasFailed r.world_before r.world_after }
    ensures told { (r : Run) (status : ℕ) → Ends r status → ¬ (status ≡ 10)
        → (exit : declared.Exit)
        × Tells (record { command = r.command; exit = exit; status = status }) r.world_before r.world_after }
{
    ends_have_causes::<Answerer>();
}

/// What comes of a run in which the outside fails nowhere.
pub fn answers_what_is_given()
    // A check of a schema: 0, or memory ran out.
    ensures checks { (r : Run) (status : ℕ) → Ends r status → SchemaIsGiven r
        → ¬ (WorldHasFailed r.world_before r.world_after) → (status ≡ 7) ⊎ (status ≡ 0) }
    // Serving by a schema, where each link brings whole requests: each of them gets its reply, on its
    // link, in whatever pieces it came, or memory ran out.
    ensures complete { (r : Run) (status : ℕ) → Ends r status
        → (schema : Schema) (requests : List (List Request)) (given : RequestsAreGiven r schema requests)
        → ¬ (WorldHasFailed r.world_before r.world_after)
        → ¬ (DoorHasFailed r.door_before r.door_after)
        → (status ≡ 7) ⊎ ((status ≡ 0) × AreReplied r schema requests given) }
{
    door_completes::<Answerer>();
    ends_have_causes::<Answerer>();
    schema_has_no_fault();
    file_is_one_schema();
}

/// What comes of a run whose schema file is no schema, is too long or isn't there, whichever command it is.
pub fn given_files_decide()
    // A file that is short enough and no schema: 4, or memory ran out. `refused` says what is told then.
    ensures unfit { (r : Run) (status : ℕ) → Ends r status
        → (file : List ℕ) → NamesFile r file → ¬ (IsTooLong file) → ¬ (IsSchemaFile file)
        → ¬ (WorldHasFailed r.world_before r.world_after) → (status ≡ 7) ⊎ (status ≡ 4) }
    // A file that is too long: 3, or memory ran out.
    ensures too_long { (r : Run) (status : ℕ) → Ends r status
        → (file : List ℕ) → NamesFile r file → IsTooLong file
        → ¬ (WorldHasFailed r.world_before r.world_after) → (status ≡ 7) ⊎ (status ≡ 3) }
    // No file of that name: memory ran out, or the world counted a fault, and then it is 3, or 10 where
    // even that couldn't be told.
    ensures absent { (r : Run) (status : ℕ) → Ends r status → NamesNoFile r
        → (status ≡ 7)
        ⊎ (((status ≡ 3) ⊎ (status ≡ 10)) × WorldHasFailed r.world_before r.world_after) }
{}
