//! Calls of the libraries that no command makes, or of which a command shows too little, each once: as tests. They stand
//! in a crate of their own, since a crate with tests is proved twice. The program itself does nothing.
#![tactic(auto)]

#[cfg(test)]
mod calls;

fn main(_rt: HostRuntime) {}
