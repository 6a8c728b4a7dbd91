mod checked;
mod commits;
pub mod files;
mod groups;
mod opening;
mod pages;
pub mod runs;
mod stops;
