ghost use Rattle.std.specs.Prelude.{◌≡◌, ◌<◌, ◌+◌, [], ◌∷◌, ◌++◌, length, slice_get, slice_index, Some, OnOk};
ghost use Rattle.expr_core.specs.Numbering.{added};

use list_core::Parts;
use std::alloc::{AllocError, Global};

/// Where a part stands: in which model, and where among the model's own.
#[derive(Clone, Copy, Debug)]
pub(crate) struct Place {
    pub(crate) model: usize,
    pub(crate) at: usize,
}

/// The numbers of what models have, counted through all models in order.
#[derive(Debug, Drop)]
pub(crate) struct Numbering {
    /// The number of each model's first part; of its next one, where it has none.
    pub(crate) starts: Parts<usize>,
    /// Where the part of each number stands.
    pub(crate) places: Parts<Place>,
}

impl Numbering {
    /// No models yet.
    pub(crate) fn new(alloc: Global) -> Numbering
        ensures { result ≡ record { starts = []; places = [] } }
    {
        Numbering {
            starts: Parts::new(alloc),
            places: Parts::new(alloc),
        }
    }

    /// Adds a model with so many parts.
    pub(crate) fn add(&mut self, count: usize) -> Result<(), AllocError>
        ensures { OnOk result (self.new ≡ added self.old count) }
    {
        let model = self.starts.len();
        self.starts.push(self.places.len())?;
        for at in 0..count {
            self.places.push(Place { model, at })?;
        }
        Ok(())
    }

    /// Where the part of a number stands.
    pub(crate) fn place(&self, number: usize) -> Place
        requires { number < length self.now.places }
        ensures { slice_get self.now.places number ≡ Some result }
    {
        self.places.as_slice()[number]
    }

    /// The number of the part at a place.
    pub(crate) fn number(&self, place: Place) -> usize
        requires known { place.model < length self.now.starts }
        requires within { slice_index self.now.starts place.model + place.at < length self.now.places }
        ensures { result ≡ slice_index self.now.starts place.model + place.at }
    {
        let start = self.starts.as_slice()[place.model];
        let count = self.places.len();
        prove!(start < count && place.at < count - start);
        start + place.at
    }
}
