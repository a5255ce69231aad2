ghost use Rattle.std.specs.Prelude.{◌≡◌, ◌<◌, map, option_map, Some, IfSome, All};
ghost use Rattle.std.specs.Option.{option_copied};
ghost use Rattle.snap_core.specs.Value.{AreAscending};
ghost use Rattle.list_core.specs.Outcome.{Gives};
ghost use Rattle.expr_syntax.specs.Shown.{shown};
ghost use Rattle.expr_syntax.specs.ShownStatements.{block_shown};
ghost use Rattle.model_syntax.specs.Shown.{IsInOrder, behaviour_shown, view_shown, action_shown, middleware_shown};
ghost use Rattle.expr_core.specs.Numbers.{parts_of};
ghost use Rattle.expr_core.specs.Plain.{HavePlainConstants, HavePlainActions, HavePlainConditions};
ghost use Rattle.expr_core.specs.Schema.{behaviours_shown, views_of, view_count, view_at, view_no, actions_of, action_count, action_at, action_no, middleware_of};

use crate::named::position;
use crate::numbering::{Numbering, Place};
use expr_syntax::{ActionNo, Block, Expr, ViewNo};
use list_core::Parts;
use model_syntax::{Action, Behaviour, Middleware, Param, View};
use snap_core::{ModelNo, Name};
use std::alloc::AllocError;
use std::marker::Model;
use type_core::Types;

/// A schema: its types, how many changes a document's history keeps, and the views, actions and middleware of its models.
#[derive(Debug, Drop)]
pub struct Schema {
    types: Types,
    history: u32,
    behaviours: Parts<Behaviour>,
    views: Numbering,
    actions: Numbering,
}

impl Model for Schema {
    ghost use Rattle.std.specs.Coded.{codes};
    ghost use Rattle.snap_core.specs.contracts.snap.Snap as snap;
    ghost use Rattle.expr_syntax.specs.contracts.expr.Form as form;
    ghost use Rattle.expr_syntax.specs.contracts.stmt.Stmt as stmt;
    ghost use Rattle.expr_core.specs.Schema as specs;

    ghost Value = { specs.Schema };

    ghost coded = { Prim.hlevel (codes, snap.the_row.coded, form.the_row.coded, stmt.the_row.coded) };

    ghost use Rattle.expr_core.specs.Numbering.{IsIndexed};

    ghost view = { λ s. record { types = s.types; history = s.history; behaviours = s.behaviours } };

    ghost invariant = { λ s. IsIndexed s.behaviours s.views s.actions };
}

impl Schema {
    /// The schema of these types, with the most changes that a document's history keeps, and what each model has beside its
    /// properties. Schema files keep at most 100 changes. Views and actions are numbered here.
    pub fn new(
        types: Types,
        history: u32,
        behaviours: Parts<Behaviour>,
    ) -> Result<Schema, AllocError>
        requires ordered { All (λ b. IsInOrder (behaviour_shown b)) behaviours }
        requires plain { HavePlainConstants (map (λ b. (behaviour_shown b).views) behaviours) }
        requires plain_actions { HavePlainActions (map behaviour_shown behaviours) }
        requires plain_conditions { HavePlainConditions (map behaviour_shown behaviours) }
        ensures { Gives result (record { types = types; history = history; behaviours = behaviours }) }
    {
        let alloc = behaviours.allocator();
        let mut views = Numbering::new(alloc);
        let mut actions = Numbering::new(alloc);
        for behaviour in behaviours.as_slice() {
            views.add(behaviour.views.len())?;
            actions.add(behaviour.actions.len())?;
        }
        Ok(Schema {
            types,
            history,
            behaviours,
            views,
            actions,
        })
    }

    /// The types, and the models among them.
    pub fn types(&self) -> &Types
        ensures { result.now ≡ self.now.types }
    {
        &self.types
    }

    /// The model that documents are of.
    pub fn root(&self) -> ModelNo
        ensures { result ≡ self.now.types.root }
    {
        self.types.root()
    }

    /// How many changes a document's history keeps at most.
    pub fn history(&self) -> u32
        ensures { result ≡ self.now.history }
    {
        self.history
    }

    /// A model's view of this name; none where the model has none, or there is no such model.
    pub fn view(&self, m: ModelNo, name: &str) -> Option<ViewNo>
        ensures number { result ≡ view_no self.now m name.now }
        ensures known { IfSome result (λ v. v.0 < view_count self.now) }
        ensures named { IfSome result (λ v. option_map (λ w. w.name) (view_at self.now v) ≡ Some name.now) }
        ensures plain { HavePlainConstants (views_of self.now) }
    {
        let views = &self.views;
        let at = position(self.own_views(m), name)?;
        Some(ViewNo(views.number(Place { model: m.0, at })))
    }

    /// The expression that a view answers.
    pub fn body(&self, v: ViewNo) -> &Expr
        requires { v.0 < view_count self.now }
        ensures { option_map (λ w. w.body) (view_at self.now v) ≡ Some (shown result.now) }
    {
        &self.view_at(v).body
    }

    /// The name of a view; none where there is no such view.
    pub fn view_name(&self, v: ViewNo) -> Option<&Name>
        ensures { option_copied result ≡ option_map (λ w. w.name) (view_at self.now v) }
    {
        if v.0 < self.views.places.len() {
            Some(&self.view_at(v).name)
        } else {
            None
        }
    }

    /// A model's action of this name; none where the model has none, or there is no such model.
    pub fn action(&self, m: ModelNo, name: &str) -> Option<ActionNo>
        ensures number { result ≡ action_no self.now m name.now }
        ensures known { IfSome result (λ a. a.0 < action_count self.now) }
        ensures named { IfSome result (λ a. option_map (λ b. b.name) (action_at self.now a) ≡ Some name.now) }
        ensures plain { HavePlainActions (behaviours_shown self.now) }
    {
        let actions = &self.actions;
        let at = position(self.own_actions(m), name)?;
        Some(ActionNo(actions.number(Place { model: m.0, at })))
    }

    /// The parameters of an action, in order.
    pub fn params(&self, a: ActionNo) -> &[Param]
        requires { a.0 < action_count self.now }
        ensures { option_map (λ b. b.params) (action_at self.now a) ≡ Some result.now }
    {
        self.action_at(a).params.as_slice()
    }

    /// What an action runs.
    pub fn action_body(&self, a: ActionNo) -> &Block
        requires { a.0 < action_count self.now }
        ensures { option_map (λ b. b.body) (action_at self.now a) ≡ Some (block_shown result.now) }
    {
        &self.action_at(a).body
    }

    /// The name of an action; none where there is no such action.
    pub fn action_name(&self, a: ActionNo) -> Option<&Name>
        ensures { option_copied result ≡ option_map (λ b. b.name) (action_at self.now a) }
    {
        if a.0 < self.actions.places.len() {
            Some(&self.action_at(a).name)
        } else {
            None
        }
    }

    /// What surrounds actions on a model's nodes and below them, as it was declared; nothing where there is no such model.
    pub fn middleware(&self, m: ModelNo) -> &[Middleware]
        ensures is { map middleware_shown result.now ≡ middleware_of self.now m }
        ensures plain { HavePlainConditions (behaviours_shown self.now) }
    {
        match self.behaviours.get(m.0) {
            Some(behaviour) => behaviour.middleware.as_slice(),
            None => &[],
        }
    }

    fn own_views(&self, m: ModelNo) -> &[View]
        ensures views { map view_shown result.now ≡ parts_of (views_of self.now) m.0 }
        ensures ordered { AreAscending (map (λ v. v.name) result.now) }
    {
        match self.behaviours.get(m.0) {
            Some(behaviour) => behaviour.views.as_slice(),
            None => &[],
        }
    }

    fn view_at(&self, v: ViewNo) -> &View
        requires { v.0 < view_count self.now }
        ensures { view_at self.now v ≡ Some (view_shown result.now) }
    {
        let place = self.views.place(v.0);
        let behaviour = &self.behaviours.as_slice()[place.model];
        &behaviour.views.as_slice()[place.at]
    }

    fn own_actions(&self, m: ModelNo) -> &[Action]
        ensures actions { map action_shown result.now ≡ parts_of (actions_of self.now) m.0 }
        ensures ordered { AreAscending (map (λ a. a.name) result.now) }
    {
        match self.behaviours.get(m.0) {
            Some(behaviour) => behaviour.actions.as_slice(),
            None => &[],
        }
    }

    fn action_at(&self, a: ActionNo) -> &Action
        requires { a.0 < action_count self.now }
        ensures { action_at self.now a ≡ Some (action_shown result.now) }
    {
        let place = self.actions.place(a.0);
        let behaviour = &self.behaviours.as_slice()[place.model];
        &behaviour.actions.as_slice()[place.at]
    }
}
