//! Scripts: a text of commands in, a text of replies out.

mod compose;
mod end;
mod run;
mod scene;

pub use end::ScriptEnd;
pub use run::run_script;
