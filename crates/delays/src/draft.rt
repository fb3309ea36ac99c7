// What is told, as it is read.
use script::Script;

// Whether the count of cycles was told, and all else that was.
#[derive(Drop)]
pub struct Draft {
    pub cycles: Option<u32>,
    pub script: Script,
}
