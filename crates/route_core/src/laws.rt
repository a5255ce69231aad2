//! What some paths name.
ghost use Rattle.std.specs.Prelude.{codes};
ghost use Rattle.route_core.specs.declared.place.Part.TheVariants.{Whole, Snapshot, Patches, Reference, Actions};
ghost use Rattle.route_core.specs.Laws.{PathNames, NamesNothing};
ghost use Rattle.route_core.specs.Place.{check, names, document, view};

/// Some paths and what they name, computed from the routes.
pub fn paths_have_places()
    ensures check { PathNames (codes "/check") check }
    ensures names { PathNames (codes "/docs") names }
    ensures document { PathNames (codes "/docs/a-B_9") (document (codes "a-B_9") Whole) }
    ensures snapshot { PathNames (codes "/docs/d/snapshot") (document (codes "d") Snapshot) }
    ensures patches { PathNames (codes "/docs/patches/patches") (document (codes "patches") Patches) }
    ensures reference { PathNames (codes "/docs/d/reference") (document (codes "d") Reference) }
    ensures actions { PathNames (codes "/docs/d/actions") (document (codes "d") Actions) }
    ensures view { PathNames (codes "/docs/d/views/v.1") (view (codes "d") (codes "v.1")) }
    ensures empty { NamesNothing (codes "") }
    ensures slash_after { NamesNothing (codes "/check/") }
    ensures slash_before { NamesNothing (codes "//check") }
    ensures no_name { NamesNothing (codes "/docs/") }
    ensures no_name_within { NamesNothing (codes "/docs//snapshot") }
    ensures bad_name { NamesNothing (codes "/docs/a.b") }
    ensures escaped { NamesNothing (codes "/docs/%61") }
    ensures no_view { NamesNothing (codes "/docs/d/views/") }
    ensures below_view { NamesNothing (codes "/docs/d/views/v/w") }
    ensures other_part { NamesNothing (codes "/docs/d/snapshots") }
{}
