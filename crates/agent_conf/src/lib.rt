//! The configuration of the agent: its limits and its applications, read from a TOML document (`read_conf`), and
//! with the rules of each application (`load`).
//!
//! ```text
//! let (conf, apps) = load(alloc, b"/etc/yefontsila/agent.toml", &mut files)?;
//! ```
//!
//! What a text means is `reading` in `specs/Faults.antt`; what files mean, `loaded` in `specs/Loading.antt`.
#![tactic(auto)]

mod application;
mod checks;
mod conf;
mod fault;
mod keys;
pub mod limits;
mod load_fault;
mod loading;
mod table;
mod top;
mod values;

pub use conf::{AppConf, Conf, read_conf};
pub use fault::ConfFault;
pub use load_fault::LoadFault;
pub use loading::{load, load_rules};
