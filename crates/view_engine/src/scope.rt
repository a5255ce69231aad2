//! By what a body, a statement or a condition is evaluated.
ghost use Rattle.std.specs.Prelude.{◌≡◌};
ghost use Rattle.eval_core.specs.Asking.{in_progress};
ghost use Rattle.view_engine.specs.Progress.{standing_of, first_site, sight_in};

use crate::halt::{Fault, Halt};
use crate::schema::Bodies;
use eval_core::Site;
use expr_syntax::ViewNo;
use live_tree::Tree;
use pointer_core::Rule;
use snap_core::NodeNo;
use std::alloc::Global;

/// The views in progress, the last one first.
#[derive(Clone, Copy)]
pub enum Going<'a> {
    Nothing,
    View(NodeNo, ViewNo, &'a Going<'a>),
}

/// By what a body, a statement or a condition is evaluated, and room for how many views more may be in progress.
#[derive(Drop)]
pub struct Scope<'a, S: Bodies> {
    pub alloc: Global,
    pub tree: &'a Tree,
    pub schema: &'a S,
    pub going: Going<'a>,
    pub room: u32,
}

impl<S: Bodies> Scope<'_, S> {
    /// Where a refusal of the body itself is told.
    fn here(&self) -> Site
        ensures { result ≡ (standing_of self.now.going).here }
    {
        match self.going {
            Going::Nothing => Site::Frame,
            Going::View(n, v, _) => Site::View(n, v),
        }
    }

    /// The root of the document.
    #[tactic(auto, unfolding(crate::specs::TreeSight::sight_of))]
    pub fn root(&self) -> NodeNo
        ensures { result ≡ (sight_in S.says self.now).root }
    {
        match self.tree.root() {
            Some(n) => n,
            None => NodeNo(0),
        }
    }

    /// A refusal of the body itself.
    pub fn refused(&self, rule: Rule) -> Halt
        ensures { result ≡ Halt.Refused (record { rule = rule; site = (standing_of self.now.going).here }) }
    {
        Halt::Refused(Fault {
            rule,
            site: self.here(),
        })
    }
}

/// Whether a view of a node is in progress.
pub fn is_going(going: &Going<'_>, n: NodeNo, v: ViewNo) -> bool
    ensures { result ≡ in_progress (record { node = n; view = v }) (standing_of going.now).stack }
{
    match going {
        Going::Nothing => false,
        Going::View(m, w, before) => (n.0 == m.0 && v.0 == w.0) || is_going(before, n, v),
    }
}

/// The first view in progress, or this one where none is.
pub fn first_going(going: &Going<'_>, n: NodeNo, v: ViewNo) -> Site
    ensures { result ≡ first_site (standing_of going.now).stack (record { node = n; view = v }) }
{
    match going {
        Going::Nothing => Site::View(n, v),
        Going::View(m, w, before) => first_going(before, *m, *w),
    }
}
