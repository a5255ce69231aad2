//! What may be refined, and what no parameter may be, under words of their own or by names that lead to them.
ghost use Rattle.std.specs.Prelude.{◌≡◌, length, map, All, IfOk};
ghost use Rattle.snap_core.specs.Value.{AreKeyed, dict};
ghost use Rattle.snap_core.specs.View.{view, fields_view};
ghost use Rattle.schema_form.specs.Names as names;
ghost use Rattle.schema_form.specs.Bases as specs;
ghost use Rattle.schema_form.specs.Bases.{AreLinks, AreBases, LeadsIn};

use crate::form::{Plain, Word};
use crate::names::word_of;
use snap_core::{Field, Snap};
use std::alloc::{AllocError, Global};

/// The kinds that may be refined, and those that no parameter may be of.
#[derive(Clone, Copy)]
pub enum Base {
    Texts,
    Integers,
    /// Identifiers and safe references.
    Barred,
}

/// What is known of the base of an entry.
#[derive(Clone, Copy)]
pub enum Link {
    /// The base; none where the entry leads to a type that has none.
    Known(Option<Base>),
    /// It is the base of the entry at this index.
    SameAs(usize),
}

/// The base that a plain type is.
fn plain_base(plain: Plain) -> Option<Base>
    ensures { result ≡ names.plain_base plain }
{
    match plain {
        Plain::Text => Some(Base::Texts),
        Plain::Integer => Some(Base::Integers),
        Plain::Identifier => Some(Base::Barred),
        _ => None,
    }
}

/// The base of a type that may be refined.
pub fn refinable(base: Option<Base>) -> Option<Base>
    ensures { result ≡ names.refinable base }
{
    match base {
        Some(Base::Texts) => Some(Base::Texts),
        Some(Base::Integers) => Some(Base::Integers),
        Some(Base::Barred) | None => None,
    }
}

/// The base of an object: a safe reference has one.
fn keyed_base(fields: &[Field]) -> Option<Base>
    ensures { result ≡ names.keyed_base (dict tt (fields_view fields.now)) }
{
    if fields.len() != 1 {
        return None;
    }
    let field = &fields[0];
    if field.key.text() == "safeReference" {
        Some(Base::Barred)
    } else {
        None
    }
}

/// The base of a type expression, where those of the entries are known.
pub fn type_base(types: &[Field], bases: &[Option<Base>], value: &Snap) -> Option<Base>
    requires keyed { AreKeyed (fields_view types.now) }
    requires bases { AreBases types.now bases.now }
    ensures { result ≡ names.type_base (fields_view types.now) (view value.now) }
{
    match value {
        Snap::Text(word) => text_base(types, bases, word.text()),
        Snap::Dict(fields) => keyed_base(fields.as_slice()),
        _ => None,
    }
}

fn text_base(types: &[Field], bases: &[Option<Base>], text: &str) -> Option<Base>
    requires keyed { AreKeyed (fields_view types.now) }
    requires bases { AreBases types.now bases.now }
    ensures { result ≡ names.base_of (fields_view types.now) text.now }
{
    match word_of(types, text) {
        Some(word) => base_of(bases, word),
        None => None,
    }
}

/// The base that a word is, where those of the entries are known.
pub fn base_of(bases: &[Option<Base>], word: Word) -> Option<Base>
    ensures { result ≡ specs.known_base bases.now word }
{
    match word {
        Word::Plain(plain) => plain_base(plain),
        Word::Named(entry) => match bases.get(entry.0) {
            Some(base) => *base,
            None => None,
        },
    }
}

/// The bases of the entries of the types, names followed.
pub fn bases_of(alloc: Global, types: &[Field]) -> Result<Vec<Option<Base>>, AllocError>
    requires { AreKeyed (fields_view types.now) }
    ensures { IfOk result (λ bases. AreBases types.now bases.items) }
{
    let links = last_links(alloc, types)?;
    let mut bases = Vec::new(alloc);
    for link in &links {
        bases.push(ended(*link))?;
    }
    Ok(bases)
}

/// Follows names so far that what still leads on leads in a circle: twice as far each time.
fn last_links(alloc: Global, types: &[Field]) -> Result<Vec<Link>, AllocError>
    requires { AreKeyed (fields_view types.now) }
    ensures { IfOk result (λ links. AreLinks types.now names.most_names links.items) }
{
    let mut links = first_links(alloc, types)?;
    for _round in 0..64u32 {
        links = doubled(alloc, &links)?;
    }
    Ok(links)
}

fn ended(link: Link) -> Option<Base>
    ensures { result ≡ specs.ended link }
{
    match link {
        Link::Known(base) => base,
        Link::SameAs(_) => None,
    }
}

/// The link of each entry: a name leads to the entry of that name.
fn first_links(alloc: Global, types: &[Field]) -> Result<Vec<Link>, AllocError>
    requires { AreKeyed (fields_view types.now) }
    ensures { IfOk result (λ links. links.items ≡ specs.first_links types.now) }
{
    let mut links = Vec::new(alloc);
    for field in types {
        links.push(first_link(types, &field.value))?;
    }
    Ok(links)
}

fn first_link(types: &[Field], value: &Snap) -> Link
    requires { AreKeyed (fields_view types.now) }
    ensures { result ≡ specs.first_link (fields_view types.now) (view value.now) }
{
    match value {
        Snap::Text(word) => word_link(word_of(types, word.text())),
        Snap::Dict(fields) => Link::Known(keyed_base(fields.as_slice())),
        _ => Link::Known(None),
    }
}

fn word_link(word: Option<Word>) -> Link
    ensures { result ≡ specs.word_link word }
{
    match word {
        Some(Word::Plain(plain)) => Link::Known(plain_base(plain)),
        Some(Word::Named(entry)) => Link::SameAs(entry.0),
        None => Link::Known(None),
    }
}

/// The links that lead twice as far.
fn doubled(alloc: Global, links: &[Link]) -> Result<Vec<Link>, AllocError>
    requires { All (LeadsIn (length links.now)) links.now }
    ensures { IfOk result (λ further. further.items ≡ specs.doubled links.now) }
{
    let mut further = Vec::new(alloc);
    for link in links {
        further.push(followed(links, *link))?;
    }
    Ok(further)
}

/// Where a link leads, followed once more.
fn followed(links: &[Link], link: Link) -> Link
    requires { LeadsIn (length links.now) link }
    ensures { result ≡ specs.followed links.now link }
{
    match link {
        Link::Known(_) => link,
        Link::SameAs(at) => links[at],
    }
}
