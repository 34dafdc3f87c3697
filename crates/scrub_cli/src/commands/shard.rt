//! The command `shard`: the bytes of one shard of a disk in an image file.

ghost use Rattle.std.specs.Prelude.{◌≤◌, MatchResult};
ghost use Rattle.scrub_cli.specs.Shard.{AreShardTakings, IsFaultFor, IsShardFault, IsWrittenFor};

use crate::commands::answer::Answer;
use crate::commands::geometry::geometry_of;
use crate::commands::given_runs::load_with_runs;
use crate::commands::remarks::shard_remark_lines;
use crate::process::fault::Fault;
use crate::process::images::Images;
use crate::process::outcome::Outcome;
use scrub_args::{ShardArgs, shard_id};
use scrub_pool::{NoGate, Takings};
use scrub_shard::{ShardAnswer, read_shard};
use std::alloc::Global;
use std::sync::Wait;
use std::thread::Threads;

/// The bytes that were found, with these lines for the error stream, or why there are none.
fn bytes_of<'a>(answer: ShardAnswer, lines: Vec<u8>) -> Result<Answer, Fault<'a>>
    ensures { MatchResult result (λ a. IsWrittenFor answer lines.items a.text.items a.outcome)
        (IsFaultFor answer) }
{
    match answer {
        ShardAnswer::NoSuchShard => Err(Fault::NoShard),
        ShardAnswer::PayloadLost(number) => Err(Fault::PayloadLost(number)),
        ShardAnswer::Found(found) => {
            let outcome = Outcome::warned(lines, true);
            let text = found.into_bytes();
            Ok(Answer { text, outcome })
        }
    }
}

/// The bytes of the shard that the arguments name, and the extents that each worker took. Faults are
/// checked in the order of `Fault`.
pub fn shard<'a, R: Threads + Wait + Sync, I: Images>(
    rt: &R,
    alloc: Global,
    args: &ShardArgs<'a>,
    images: &mut I,
) -> Result<(Answer, Takings), Fault<'a>>
    requires { args.now.scan.workers ≤ 64 }
    ensures { MatchResult result
        (λ r. AreShardTakings (I.known images.old args.now.scan.image.name.now) (I.known_map images.old)
        args.now r.0.text.items r.0.outcome r.1)
        (IsShardFault (I.known images.old args.now.scan.image.name.now) (I.known_map images.old) args.now) }
{
    let image = &args.scan.image;
    let (geometry, opened) = geometry_of(alloc, image, images)?;
    let Some(id) = shard_id(args.id) else {
        return Err(Fault::BadShard(args.id));
    };
    let (disk, given) = load_with_runs(rt, alloc, geometry, image, &args.runs, opened, images)?;
    let given = given.as_deref();
    let workers = args.scan.workers;
    let (found, takings) = read_shard(rt, alloc, &disk, workers, &NoGate, given, id)?;
    let lines = shard_remark_lines(alloc, &found.remarks, &found.answer)?;
    Ok((bytes_of(found.answer, lines.into_bytes())?, takings))
}
