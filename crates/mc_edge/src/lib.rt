// The edge of the program: the words of the command line, real files, and standard output.
#![tactic(auto)]

mod command_line;
mod counted;
mod dir_shelf;

pub use command_line::program;
pub use dir_shelf::DirShelf;
