//! What the arguments of the program ask for, which of them are refused, and the help. No file is opened
//! here.
#![tactic(auto)]

pub mod accepting;
pub mod args;
pub mod command;
mod help_texts;
pub mod id;
pub mod pair;

pub use accepting::AcceptedDoubts;
pub use args::{
    ArgsFault, CompareArgs, GivenSizes, ImageArgs, ItemsArgs, ManifestArgs, Request, ScanArgs,
    ScanOutput, ShardArgs, ShardsArgs, SizesArgs, read_args,
};
pub use command::VERSION;
pub use id::shard_id;
pub use pair::bad_page;
