//! Facts about every walk of `clap` over arguments, for any table of options that take one value at a time,
//! and of flags: lemmas for the crates above, and a law. This crate knows nothing of disks or of the
//! program's commands.
#![tactic(auto)]

ghost use Rattle.std.specs.Prelude.{List};
ghost use Rattle.clap.specs.Simple.{Shape, rows_at};
ghost use Rattle.clap.specs.Words.{Text};
ghost use Rattle.clap_walk.specs.Rows.{EachRow, IsSound};
ghost use Rattle.clap_walk.specs.Rules.{AreClean, AreUsual};

/// A law: if the arguments have no fault, each one that is present has a value, and its parser accepted each
/// of its values.
pub fn values_are_sound()
    ensures { (s : Shape) (words : List Text) → AreUsual s.rules → AreClean s words →
        EachRow (IsSound s.rules) (rows_at s words).1 }
{}
