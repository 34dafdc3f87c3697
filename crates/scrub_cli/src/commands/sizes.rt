//! The command `sizes`: the superblock records of a raw image whose sizes aren't known.

ghost use Rattle.std.specs.Prelude.{◌≡◌, IfOk, MatchResult};
ghost use Rattle.scrub_cli.specs.SizesListed.{IsSizesAnswer, IsSizesFault};

use crate::commands::answer::{Answer, sizes_listing};
use crate::commands::opened::open;
use crate::commands::rescue::front_of;
use crate::process::fault::Fault;
use crate::process::images::Images;
use scrub_args::SizesArgs;
use std::alloc::Global;

/// The superblock records of the image that the arguments name, each with its own sizes, and the lost bytes.
/// Faults are checked in the order of `Fault`.
pub fn sizes<'a, I: Images>(
    alloc: Global,
    args: &SizesArgs<'a>,
    images: &mut I,
) -> Result<Answer, Fault<'a>>
    ensures { MatchResult result
        (λ a. IsSizesAnswer (I.known images.old args.now.name.now) (I.known_map images.old) args.now
        a.text.items a.outcome)
        (IsSizesFault (I.known images.old args.now.name.now) (I.known_map images.old) args.now) }
{
    let mut opened = open(alloc, args.map, args.name, images)?;
    let front = front_of(alloc, &mut opened.raw, &opened.map)?;
    Ok(sizes_listing(alloc, &front)?)
}
