//! What the command `map` answers: the mangled program, beside the map that undoes its renaming.

ghost use Rattle.std.specs.Prelude.{◌≡◌, ◌+◌, ◌<◌, ◌^◌, IfErr, IfOk, length, string_bytes};
ghost use Rattle.mangle_options.specs.Settings.{reserved_in};
ghost use Rattle.mangle_tool.specs.Answer.{IsCauseOf, IsProgramCause};
ghost use Rattle.mangle_tool.specs.Asked.{asked_by};
ghost use Rattle.mangle_tool.specs.Mangling.{options_for};
ghost use Rattle.name_map.specs.Filled.{apply_map};
ghost use Rattle.name_map.specs.Fits.{Fits};
ghost use Rattle.name_map.specs.Made.{IsMapOf};
ghost use Rattle.name_map.specs.Written.{IsMap};
ghost use Rattle.tool_commands.specs.Map.{IsMapAnswer, IsMapText};
ghost use Rattle.tool_words.specs.declared.command.Layout.TheVariants.{Compact};
ghost use Rattle.tree_core.specs.NodeCount.{node_count};
ghost use Rattle.tree_nodes.specs.Tree.{alone};
ghost use Rattle.tree_places.specs.Renaming.{IsRenamed};

use crate::mapped_text::mapped_text;
use mangle_tool::estree::{MangleError, MangleOptions, program_of};
use mangle_tool::mangle_program;
use name_map::{MapError, NameMap, make_map};
use std::alloc::{AllocError, Global};
use tree_core::Program;

// The text of the mangled program and its map.
pub(crate) fn map_answer(
    alloc: Global,
    input: &[u8],
    options: &MangleOptions,
) -> Result<String, MangleError>
    ensures answer { IfOk result
        (λ text. IsMapAnswer (asked_by options.now Compact) input.now (string_bytes text)) }
    ensures cause { IfErr result (λ e. IsCauseOf (length (reserved_in options.now)) e input.now) }
{
    let program = program_of(alloc, input, options.reserved.len())?;
    map_of_program(alloc, program, options)
}

fn map_of_program(
    alloc: Global,
    program: Program,
    options: &MangleOptions,
) -> Result<String, MangleError>
    requires few { node_count program + length (reserved_in options.now) < 2 ^ 30 }
    ensures answer { IfOk result
        (λ text. IsMapText (options_for options.now program) program (string_bytes text)) }
    ensures cause { IfErr result (λ e. IsProgramCause e program) }
{
    let copy = copy_of(alloc, &program)?;
    let mangled = mangle_program(alloc, options, copy)?;
    let map = map_of_renaming(alloc, &program, &mangled)?;
    Ok(mapped_text(alloc, &mangled, &map)?)
}

// A copy of a program. Err is want of memory.
fn copy_of(alloc: Global, program: &Program) -> Result<Program, AllocError>
    ensures { IfOk result (λ p. p ≡ program.now) }
{
    Ok(Program::from_root(program.root().try_clone(alloc)?))
}

// The map of a renaming. Err is want of memory.
fn map_of_renaming(alloc: Global, before: &Program, after: &Program) -> Result<NameMap, AllocError>
    requires { IsRenamed (alone before.now) (alone after.now) }
    ensures map { IfOk result (λ m. IsMapOf before.now after.now m) }
    ensures sized { IfOk result IsMap }
    ensures fits { IfOk result (λ m. Fits after.now m) }
    ensures restores { IfOk result (λ m. apply_map after.now m ≡ before.now) }
{
    match make_map(alloc, before, after) {
        Ok(map) => Ok(map),
        Err(MapError::NotRenamed) => unreachable!(),
        Err(MapError::Memory) => Err(AllocError),
    }
}
