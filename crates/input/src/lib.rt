//! Texts that are read line by line, whose size memory need not hold, and how what they hold is shown in a message.
#![tactic(auto)]

mod command_line;
mod feed;
mod shown;
#[cfg(test)]
mod tests;
mod text;

pub use command_line::{BadArguments, arguments};
pub use feed::Feed;
pub use shown::{Cut, Escaped};
pub use text::{Misread, Next};
