// What the words of the command line and the text of settings say.
#![tactic(auto)]

mod command;
mod options;
mod setting_fault;
mod settings;
mod words;

pub use command::{Command, WordFault};
pub use setting_fault::SettingFault;
pub use settings::read_settings;
pub use words::read_words;
