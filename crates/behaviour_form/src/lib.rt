//! Views, middleware and the bodies of actions, as schema files spell them in a model.
//!
//! ```text
//! let views = read_views(alloc, value, parts, types, targets);            // what stands under `views`
//! let middleware = read_middleware(alloc, value, types, targets);         // what stands under `middleware`
//! let body = read_action_body(alloc, body, params, types, targets);       // what stands under an action's `body`
//! ```
//!
//! Each is read in one walk, as `expr_form` reads expressions: what it says, or its first fault, or otherwise the
//! place of the first expression in it that names no model that it may name.
#![tactic(auto)]

mod actions;
mod middleware;
mod named;
mod views;

pub use actions::read_action_body;
pub use middleware::read_middleware;
pub use named::stands_in;
pub use views::read_views;
