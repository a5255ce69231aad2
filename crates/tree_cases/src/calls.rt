//! The calls of a table.
ghost use Rattle.snap_core.specs.Value.{IsPlain, ArePlainMembers};
ghost use Rattle.snap_core.specs.View.{view, fields_view};
ghost use Rattle.std.specs.Prelude.{All, IfOk};
ghost use Rattle.patch_core.specs.Application.{HasValue};
ghost use Rattle.patch_core.specs.Printing.{HasPlainValues};

use crate::fault::Fault;
use crate::places::{change_of, place_of, value_of};
use crate::printing::{counted, shown_patch};
use crate::session::Session;
use list_core::Parts;
use patch_core::{Patches, read_patches};
use pointer_core::Pointer;
use snap_core::{Field, Ident, ModelNo, NodeNo, Snap, Txt};
use std::alloc::Global;
use tree_core::{Place, Target, TreeError};
use type_core::Types;

impl Session {
    /// What a call comes to: where it says so, how many patches it logs in place of the patches.
    pub fn call(&mut self, alloc: Global, types: &Types, fields: &[Field]) -> Result<Snap, Fault>
        requires { ArePlainMembers (fields_view fields.now) }
    {
        if value_of(fields, "counted").is_none() {
            return self.done(alloc, types, fields);
        }
        let before = self.tree.log().len();
        let _ = self.done(alloc, types, fields)?;
        counted(self.tree.log().len().saturating_sub(before))
    }

    // What a call comes to, with the patches that it logs.
    fn done(&mut self, alloc: Global, types: &Types, fields: &[Field]) -> Result<Snap, Fault>
        requires { ArePlainMembers (fields_view fields.now) }
    {
        let before = self.tree.log().len();
        if let Some(node) = value_of(fields, "of") {
            self.write(alloc, types, node, fields)?;
            return self.logged(alloc, before);
        }
        if value_of(fields, "settle").is_some() {
            self.tree.settle(alloc, types)?;
            return self.logged(alloc, before);
        }
        if let Some(list) = value_of(fields, "patches") {
            self.write_list(alloc, types, list)?;
            return self.logged(alloc, before);
        }
        if let Some(list) = value_of(fields, "restore") {
            self.put_back(alloc, types, list)?;
            return self.logged(alloc, before);
        }
        if value_of(fields, "log").is_some() {
            return self.logged(alloc, 0);
        }
        self.move_marks(alloc, types, fields)
    }

    fn write_list(&mut self, alloc: Global, types: &Types, list: &Snap) -> Result<(), Fault>
        requires { IsPlain (view list.now) }
    {
        let patches = patches_of(alloc, list)?;
        Ok(self.tree.write_list(alloc, types, &patches)?)
    }

    fn put_back(&mut self, alloc: Global, types: &Types, list: &Snap) -> Result<(), Fault>
        requires { IsPlain (view list.now) }
    {
        let patches = patches_of(alloc, list)?;
        Ok(self.tree.put_back(alloc, types, &patches)?)
    }

    // The patches from an index of the log on.
    fn logged(&self, alloc: Global, start: usize) -> Result<Snap, Fault> {
        let mut patches = Parts::new(alloc);
        let log = self.tree.log();
        for at in start..log.len() {
            if let Some(patch) = log.get(at) {
                patches.push(shown_patch(alloc, patch)?)?;
            }
        }
        Ok(Snap::List(patches))
    }

    fn write(
        &mut self,
        alloc: Global,
        types: &Types,
        name: &Snap,
        fields: &[Field],
    ) -> Result<(), Fault>
        requires { ArePlainMembers (fields_view fields.now) }
    {
        let node = self.node(alloc, types, name)?;
        let place = place_of(alloc, node, fields)?;
        let running = self.running(alloc, types, fields)?;
        let change = change_of(alloc, fields)?;
        let to = target_of(running.as_slice(), &place);
        Ok(self.tree.write(alloc, types, &to, change)?)
    }

    fn move_marks(&mut self, alloc: Global, types: &Types, fields: &[Field]) -> Result<Snap, Fault>
        requires { ArePlainMembers (fields_view fields.now) }
    {
        if value_of(fields, "mark").is_some() {
            self.marks.push(self.tree.mark())?;
        } else if let Some(Snap::Int(at)) = value_of(fields, "back") {
            self.roll_back(*at)?;
        } else if value_of(fields, "commit").is_some() {
            self.tree.commit();
        } else {
            return self.keep(alloc, types, fields);
        }
        counted(self.tree.log().len())
    }

    fn roll_back(&mut self, at: i64) -> Result<(), Fault> {
        let Ok(at) = usize::try_from(at) else {
            return Err(Fault::NoCase);
        };
        let Some(mark) = self.marks.get(at) else {
            return Err(Fault::NoCase);
        };
        self.tree.roll_back(*mark);
        Ok(())
    }

    fn keep(&mut self, alloc: Global, types: &Types, fields: &[Field]) -> Result<Snap, Fault>
        requires { ArePlainMembers (fields_view fields.now) }
    {
        if let Some(Snap::List(names)) = value_of(fields, "keep") {
            let nodes = self.nodes(alloc, types, names.as_slice())?;
            self.kept.extend(nodes)?;
            return counted(self.kept.len());
        }
        self.ask(alloc, types, fields)
    }

    fn ask(&self, alloc: Global, types: &Types, fields: &[Field]) -> Result<Snap, Fault>
        requires { ArePlainMembers (fields_view fields.now) }
    {
        if value_of(fields, "where").is_some() {
            return self.whereabouts(alloc);
        }
        if let Some(Snap::Text(path)) = value_of(fields, "show") {
            let pointer = Pointer::parse(alloc, path.text())?;
            return Ok(self.tree.show(alloc, &pointer)?);
        }
        match value_of(fields, "resolve") {
            Some(Snap::List(names)) => self.resolve(alloc, types, names.as_slice()),
            _ => Err(Fault::NoCase),
        }
    }

    // The pointers of the nodes that are kept.
    fn whereabouts(&self, alloc: Global) -> Result<Snap, Fault> {
        let mut pointers = Parts::new(alloc);
        for at in 0..self.kept.len() {
            if let Some(node) = self.kept.get(at) {
                pointers.push(self.pointer_of(alloc, *node)?)?;
            }
        }
        Ok(Snap::List(pointers))
    }

    // The pointer of a node; null where it is dead.
    fn pointer_of(&self, alloc: Global, node: NodeNo) -> Result<Snap, Fault> {
        match self.tree.path_of(alloc, node) {
            Ok(pointer) => Ok(Snap::Text(pointer.print()?)),
            Err(TreeError::Memory) => Err(Fault::Memory),
            Err(TreeError::Refused(_)) => Ok(Snap::Null),
        }
    }

    // The pointer of the model of a name with an identifier; null where there is none.
    fn resolve(&self, alloc: Global, types: &Types, names: &[Snap]) -> Result<Snap, Fault> {
        let [Snap::Text(model), identifier] = names else {
            return Err(Fault::NoCase);
        };
        let Some(model) = model_named(types, model.text()) else {
            return Err(Fault::NoCase);
        };
        let ident = identifier_of(alloc, identifier)?;
        match self.tree.resolve(types, model, &ident) {
            Some(node) => self.pointer_of(alloc, node),
            None => Ok(Snap::Null),
        }
    }
}

#[tactic(auto, using(crate::proofs::Plain::ordered))]
fn patches_of(alloc: Global, list: &Snap) -> Result<Patches, Fault>
    requires { IsPlain (view list.now) }
    ensures values { IfOk result (λ patches. All HasValue patches) }
    ensures plain { IfOk result (λ patches. All HasPlainValues patches) }
{
    Ok(read_patches(alloc, list)?)
}

// A place that no path names.
fn target_of<'a>(running: &'a [NodeNo], place: &'a Place) -> Target<'a> {
    Target {
        running,
        place,
        named: None,
    }
}

fn identifier_of(alloc: Global, value: &Snap) -> Result<Ident, Fault> {
    match value {
        Snap::Text(text) => Ok(Ident::Text(Txt::copy(alloc, text.text())?)),
        Snap::Int(n) => Ok(Ident::Number(*n)),
        _ => Err(Fault::NoCase),
    }
}

fn model_named(types: &Types, name: &str) -> Option<ModelNo> {
    for at in 0..types.count() {
        let model = ModelNo(at);
        if types.own_type(model).is_some() && types.name(model).text() == name {
            return Some(model);
        }
    }
    None
}
