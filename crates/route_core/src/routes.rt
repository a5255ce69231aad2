//! Which place a path names.
ghost use Rattle.std.specs.Prelude.{◌≡◌, IfOk, OnOk, IsTrue, map, option_map};
ghost use Rattle.std.specs.List.{list_all};
ghost use Rattle.matchit.specs.Params.{walk};
ghost use Rattle.matchit.specs.Seek.{first};
ghost use Rattle.route_core.specs.Ask.{asked_by, seen};
ghost use Rattle.route_core.specs.Path as spec;
ghost use Rattle.route_core.specs.Place.{seen_place, is_name_byte, is_document_name};

use crate::ask::{Asked, asked_at};
use crate::place::{Part, Place};
use matchit::{Params, Router};
use std::alloc::{AllocError, Global};

const MOST_NAME_BYTES: usize = 64;

// What a route leads to, once a document's name is taken from the path.
#[derive(Clone, Copy, Debug)]
enum Route {
    Check,
    Names,
    Document(Part),
    View,
}

/// The routes of all paths.
#[derive(Drop)]
pub struct Routes {
    router: Router<Route>,
    ghost all: { router ≡ spec.routes },
}

impl Routes {
    /// Reads the routes.
    pub fn new(alloc: Global) -> Result<Routes, AllocError> {
        Ok(Routes {
            router: router(alloc)?,
        })
    }

    /// What a method asks for at a path.
    pub fn asked<'p>(&self, method: &[u8], path: &'p [u8]) -> Asked<'p>
        ensures { seen result ≡ asked_by method.now path.now }
    {
        match self.place(path) {
            Some(place) => asked_at(place, method),
            None => Asked::Unknown,
        }
    }

    // The place that a path names.
    fn place<'p>(&self, path: &'p [u8]) -> Option<Place<'p>>
        ensures { option_map seen_place result ≡ spec.place_of path.now }
    {
        if !is_plain_path(path) {
            return None;
        }
        match std::str::from_utf8(path) {
            Ok(text) => self.place_of_text(text),
            Err(_) => None,
        }
    }

    // The place that a path names of which each byte stands for itself.
    fn place_of_text<'p>(&self, path: &'p str) -> Option<Place<'p>>
        requires { IsTrue (spec.is_plain_path path.now) }
        ensures { option_map seen_place result ≡ spec.place_found path.now (first spec.routes path.now) }
    {
        match self.router.at(path) {
            Ok(found) => place_at(*found.value, &found.params),
            Err(_) => None,
        }
    }
}

// The place of a route, by what its parameters took.
fn place_at<'p>(route: Route, params: &Params<'_, 'p>) -> Option<Place<'p>>
    requires { IsTrue (spec.is_plain_path params.now.path.now) }
    ensures { option_map seen_place result ≡ spec.place_at route
        (map (λ part. part.1) (walk params.now.pattern.now params.now.text.now params.now.path.now params.now.names.now 0 0)) }
{
    match route {
        Route::Check => Some(Place::Check),
        Route::Names => Some(Place::Names),
        Route::Document(part) => match params.iter().next() {
            Some((_, name)) => document_at(name, part),
            None => None,
        },
        Route::View => view_at(params),
    }
}

// The place of a view, by the names of a document and of a view.
fn view_at<'p>(params: &Params<'_, 'p>) -> Option<Place<'p>>
    requires { IsTrue (spec.is_plain_path params.now.path.now) }
    ensures { option_map seen_place result ≡ spec.viewed
        (map (λ part. part.1) (walk params.now.pattern.now params.now.text.now params.now.path.now params.now.names.now 0 0)) }
{
    let mut parts = params.iter();
    let (_, name) = parts.next()?;
    let (_, view) = parts.next()?;
    if is_document_name(name) {
        Some(Place::View { name, view })
    } else {
        None
    }
}

fn router(alloc: Global) -> Result<Router<Route>, AllocError>
    ensures { IfOk result (λ router. router ≡ spec.routes) }
{
    let mut router = Router::new(alloc);
    add(&mut router, "/check", Route::Check)?;
    add(&mut router, "/docs", Route::Names)?;
    add(&mut router, "/docs/{d}", Route::Document(Part::Whole))?;
    add(
        &mut router,
        "/docs/{d}/snapshot",
        Route::Document(Part::Snapshot),
    )?;
    add(
        &mut router,
        "/docs/{d}/patches",
        Route::Document(Part::Patches),
    )?;
    add(
        &mut router,
        "/docs/{d}/reference",
        Route::Document(Part::Reference),
    )?;
    add(
        &mut router,
        "/docs/{d}/actions",
        Route::Document(Part::Actions),
    )?;
    add(&mut router, "/docs/{d}/views/{v}", Route::View)?;
    Ok(router)
}

// Adds a route. It conflicts with none of the others, so that the one error is want of memory.
fn add(router: &mut Router<Route>, text: &str, route: Route) -> Result<(), AllocError>
    ensures { OnOk result (router.new ≡ spec.with_row router.old (record { text = text.now; value = route })) }
{
    router.insert(text, route).map_err(|_| AllocError)
}

fn document_at(name: &str, part: Part) -> Option<Place<'_>>
    ensures { option_map seen_place result ≡ spec.named_place name.now part }
{
    if is_document_name(name) {
        Some(Place::Document { name, part })
    } else {
        None
    }
}

fn is_document_name(name: &str) -> bool
    ensures { result ≡ is_document_name name.now }
{
    !name.is_empty() && name.len() <= MOST_NAME_BYTES && are_name_bytes(name.as_bytes())
}

fn are_name_bytes(bytes: &[u8]) -> bool
    ensures { result ≡ list_all is_name_byte bytes.now }
{
    bytes.iter().all(|&b| is_name_byte(b))
}

fn is_name_byte(b: u8) -> bool
    ensures { result ≡ is_name_byte b }
{
    b.is_ascii_alphanumeric() || b == b'_' || b == b'-'
}

fn is_plain_path(path: &[u8]) -> bool
    ensures { result ≡ spec.is_plain_path path.now }
{
    path.iter().all(|&b| b.is_ascii() && b != b'%')
}
