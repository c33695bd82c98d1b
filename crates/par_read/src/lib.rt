//! Files opened as modules by several parts, which threads share. It takes the origins and bytes of files, and gives for each
//! what `module_view` gives for it: a module, or why there is none. `open_all` promises as many answers as files, in the files'
//! order, and each as if it had been opened alone (`open_job`), so that the number of parts changes no answer; `join_opened`
//! promises which module joins those before it, and why another does not. Which files are opened, and which answer is told, is
//! left to `lib_search`.
#![tactic(auto)]

mod job;
mod join;
mod opening;
mod part;

pub use job::{Answer, Job, open_job};
pub use join::join_opened;
pub use opening::open_all;

#[cfg(test)]
mod tests;
