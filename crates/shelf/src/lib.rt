//! The applications that are published, and which of them a name means.
//!
//! ```text
//! let mut shelf = Shelf::new(apps);
//! let Look::Found { rules, generation, .. } = shelf.look(b"shop") else { .. };
//! let Published::Generation(next) = shelf.publish(others) else { .. };
//! ```
//!
//! `app_in` in `specs/Found.antt` says which one a name means; what each call does is the step in
//! `specs/Step.antt`.
#![tactic(auto)]

mod acts;
mod apps;
mod calls;
mod laws;
mod lookup;
mod object;
mod shelf;
mod turns;

pub use apps::{App, Apps, Settings};
pub use calls::{Call, Look, Published, Reply};
pub use laws::lists_are_numbered;
pub use lookup::find;
pub use shelf::Shelf;
