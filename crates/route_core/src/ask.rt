//! What a method asks for at a place.
ghost use Rattle.std.specs.Prelude.{◌≡◌};
ghost use Rattle.route_core.specs.Ask.{asked_at, asked_by_one, seen, seen_ask};
ghost use Rattle.route_core.specs.Place.{seen_place, document};

use crate::place::{Part, Place};

/// What a request asks for. A name is that of a document, which need not be there.
#[derive(Clone, Copy, Debug)]
pub enum Ask<'p> {
    /// To try a value.
    Try,
    /// The names of all documents.
    List,
    /// To make the document.
    Create(&'p str),
    /// To remove it.
    Discard(&'p str),
    /// Its snapshot, or a part of it.
    Show(&'p str),
    /// To put another snapshot in place of its own.
    Replace(&'p str),
    /// To change it by patches.
    Change(&'p str),
    /// What a reference in it leads to.
    Resolve(&'p str),
    /// To call an action of a node in it.
    Act(&'p str),
    /// What a view of a node in it answers: the document's name, and the view's, which may be any text.
    View(&'p str, &'p str),
}

/// What the method and the path of a request come to.
#[derive(Clone, Copy, Debug)]
pub enum Asked<'p> {
    /// The path names nothing.
    Unknown,
    /// The method isn't one of those that are taken there.
    Wrong { allow: &'static str },
    /// Something that can be asked.
    Well(Ask<'p>),
}

pub(crate) fn asked_at<'p>(place: Place<'p>, method: &[u8]) -> Asked<'p>
    ensures { seen result ≡ asked_at (seen_place place.entry) method.now }
{
    match place {
        Place::Check => by_one(method, "POST", Ask::Try),
        Place::Names => by_one(method, "GET", Ask::List),
        Place::Document { name, part } => asked_of(name, part, method),
        Place::View { name, view } => by_one(method, "GET", Ask::View(name, view)),
    }
}

fn asked_of<'p>(name: &'p str, part: Part, method: &[u8]) -> Asked<'p>
    ensures { seen result ≡ asked_at (document name.now part) method.now }
{
    match part {
        Part::Whole => match method {
            b"POST" => Asked::Well(Ask::Create(name)),
            b"DELETE" => Asked::Well(Ask::Discard(name)),
            _ => Asked::Wrong {
                allow: "POST, DELETE",
            },
        },
        Part::Snapshot => match method {
            b"GET" => Asked::Well(Ask::Show(name)),
            b"PUT" => Asked::Well(Ask::Replace(name)),
            _ => Asked::Wrong { allow: "GET, PUT" },
        },
        Part::Patches => by_one(method, "POST", Ask::Change(name)),
        Part::Reference => by_one(method, "GET", Ask::Resolve(name)),
        Part::Actions => by_one(method, "POST", Ask::Act(name)),
    }
}

// What is asked where one method is taken.
fn by_one<'p>(method: &[u8], taken: &'static str, ask: Ask<'p>) -> Asked<'p>
    ensures { seen result ≡ asked_by_one taken.now (seen_ask ask.entry) method.now }
{
    if method == taken.as_bytes() {
        Asked::Well(ask)
    } else {
        Asked::Wrong { allow: taken }
    }
}
