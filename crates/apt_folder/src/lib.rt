//! The store of named files and the sink of lines over the system: the files of a folder, and standard output.
#![tactic(auto)]

mod draft;
mod folder;
mod hold;
mod outputs;
mod sink;

pub use folder::FolderShelf;
pub use hold::HoldFiles;
pub use sink::StdSink;
