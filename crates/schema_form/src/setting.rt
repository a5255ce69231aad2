use crate::bases::Base;
use expr_form::Target;
use snap_core::{Field, ModelNo};

/// What the parts of a model are read by: the entries of the types, what each of them is as a base and to an expression,
/// all parts of the model, and its number.
#[derive(Clone, Copy)]
pub struct Setting<'a> {
    pub types: &'a [Field],
    pub bases: &'a [Option<Base>],
    pub targets: &'a [Target],
    pub parts: &'a [Field],
    pub model: ModelNo,
}
