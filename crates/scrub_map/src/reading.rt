//! Reading the text of a map line by line. For what one line says see `line`, for what is kept of it see
//! `map`.

ghost use Rattle.std.specs.Prelude.{◌≡◌, ◌≤◌, ◌<◌, ◌+◌, [], ◌∷◌, ◌++◌, ℕ, Bool, List, IfErr, IfOk};
ghost use Rattle.std.specs.Prelude.{OnOk, length, true, false};
ghost use Rattle.scrub_map.specs.Map.{BeginsMap, IsFirstBadLine, IsMap};
ghost use Rattle.scrub_map.specs.MissingBytes.{KeepsBlocks};
ghost use Rattle.scrub_map.specs.Fault.{IfBadLine};
ghost use Rattle.scrub_map.specs.Rescued.{AreLostBlocks};
ghost use Rattle.scrub_map.specs.declared.block.MapBlock.{MapBlock};

use crate::line::{block_of, is_silent, is_state, next_line, without_carriage_return};
use crate::map::RescueMap;
use std::alloc::{AllocError, Global};
use thiserror::Error;

/// Why a text wasn't read as a map.
#[derive(Debug, Clone, Copy, PartialEq, Eq, Error)]
pub enum MapFault {
    /// Out of memory.
    #[error("out of memory")]
    OutOfMemory,
    /// The first line that breaks a rule, counted from 1. A text without a state breaks a rule at the line
    /// after its last one.
    #[error("line {0}")]
    Line(u64),
}

/// What the lines so far say.
#[derive(Drop)]
struct Reading {
    has_state: bool,
    /// Where the last block ends, in bytes.
    next: u64,
    map: RescueMap,
}

impl Reading {
    ghost use Rattle.scrub_map.specs.Fields.{fields_of, line_fields};
    ghost use Rattle.scrub_map.specs.Lines.{says_nothing};
    ghost use Rattle.scrub_map.specs.steps.Reading.{BreaksRules, HasReadLines, AwaitsBlock, ReadsMore};

    /// Nothing was read yet.
    fn new(alloc: Global) -> Reading
        ensures read { HasReadLines [] result }
        ensures ready { AwaitsBlock result }
    {
        Reading {
            has_state: false,
            next: 0,
            map: RescueMap::new(alloc),
        }
    }

    /// Reads the line with this number.
    fn add_line(&mut self, line: &[u8], number: u64) -> Result<(), MapFault>
        requires { AwaitsBlock self.old }
        ensures ready { OnOk result (AwaitsBlock self.new) }
        ensures read { OnOk result (ReadsMore (line_fields line.now) self.old self.new) }
        ensures bad { IfErr result
            (λ fault. IfBadLine fault (λ k. (k ≡ number) × BreaksRules (line_fields line.now) self.old)) }
    {
        let line = without_carriage_return(line);
        if is_silent(line) {
            return Ok(());
        }
        if self.has_state {
            return self.add_block(line, number);
        }
        self.add_state(line, number)
    }

    /// Reads the first line that is neither blank nor a comment: the state.
    fn add_state(&mut self, line: &[u8], number: u64) -> Result<(), MapFault>
        requires ready { AwaitsBlock self.old }
        requires said { says_nothing (fields_of line.now) ≡ false }
        requires first { self.old.has_state ≡ false }
        ensures ready { OnOk result (AwaitsBlock self.new) }
        ensures read { OnOk result (ReadsMore (fields_of line.now) self.old self.new) }
        ensures bad { IfErr result
            (λ fault. IfBadLine fault (λ k. (k ≡ number) × BreaksRules (fields_of line.now) self.old)) }
    {
        if !is_state(line) {
            return Err(MapFault::Line(number));
        }
        self.has_state = true;
        Ok(())
    }

    /// Reads a line after the state that is neither blank nor a comment: a block.
    fn add_block(&mut self, line: &[u8], number: u64) -> Result<(), MapFault>
        requires ready { AwaitsBlock self.old }
        requires said { says_nothing (fields_of line.now) ≡ false }
        requires behind { self.old.has_state ≡ true }
        ensures ready { OnOk result (AwaitsBlock self.new) }
        ensures read { OnOk result (ReadsMore (fields_of line.now) self.old self.new) }
        ensures bad { IfErr result
            (λ fault. IfBadLine fault (λ k. (k ≡ number) × BreaksRules (fields_of line.now) self.old)) }
    {
        let Some(block) = block_of(line) else {
            return Err(MapFault::Line(number));
        };
        if block.position < self.next {
            return Err(MapFault::Line(number));
        }
        self.map.add(block)?;
        self.next = block.position + block.size;
        Ok(())
    }

    /// The map that was read. If there was no state, the fault names this line, which is the one after the
    /// last.
    fn finish(self, number: u64) -> Result<RescueMap, MapFault>
        ensures read { IfOk result (λ map. (self.has_state ≡ true) × (map ≡ self.map)) }
        ensures bad { IfErr result (λ fault. IfBadLine fault (λ k. (k ≡ number) × (self.has_state ≡ false))) }
    {
        if self.has_state {
            Ok(self.map)
        } else {
            Err(MapFault::Line(number))
        }
    }
}

impl From<AllocError> for MapFault {
    ghost use Rattle.scrub_map.specs.declared.reading.MapFault.TheVariants.{OutOfMemory};

    ghost from_gives = { λ _ fault. fault ≡ OutOfMemory };

    fn from(_: AllocError) -> MapFault {
        MapFault::OutOfMemory
    }
}

/// Reads a map that GNU ddrescue wrote. Blank lines, and comments whose first non-blank character is `#`, are
/// skipped. The first other line is the state; the others are blocks, each at or after the end of the one
/// before. The fault is the first line that breaks a rule, unless memory runs out before that line is
/// reached.
pub fn read_map(alloc: Global, text: &[u8]) -> Result<RescueMap, MapFault>
    ensures map { IfOk result (λ map. (blocks : List MapBlock) × IsMap text.now blocks ×
        KeepsBlocks map blocks) }
    ensures line { IfErr result (λ fault. IfBadLine fault (IsFirstBadLine text.now)) }
{
    let mut reading = Reading::new(alloc);
    let mut rest = text;
    let mut number = 1;
    while !rest.is_empty() {
        let (line, behind) = next_line(rest);
        reading.add_line(line, number)?;
        number += 1;
        rest = behind;
    }
    reading.finish(number)
}

/// A law: a text is a map of at most one list of blocks.
pub fn one_list_of_blocks()
    ensures { (text : List ℕ) (a b : List MapBlock) → IsMap text a → IsMap text b → a ≡ b }
{}

/// A law: a map has no bad line, and any other text has at most one first bad line.
pub fn one_first_bad_line()
    ensures none { (text : List ℕ) (blocks : List MapBlock) (k : ℕ) → IsMap text blocks →
        ¬ IsFirstBadLine text k }
    ensures one { (text : List ℕ) (j k : ℕ) → IsFirstBadLine text j → IsFirstBadLine text k → j ≡ k }
{}

/// A law: the blocks of a map decide which blocks of a size are lost before an end.
pub fn one_list_of_lost_blocks()
    ensures { (blocks : List MapBlock) (size end : ℕ) (a b : List Bool) →
        AreLostBlocks blocks size end a → AreLostBlocks blocks size end b → a ≡ b }
{}
