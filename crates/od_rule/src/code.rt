//! Rules made ready: programs of their surface patterns, and moves of their paths.
ghost use Rattle.std.specs.Prelude.{◌≡◌, ◌++◌, ◌∷◌, [], length, IfOk, OnOk};
ghost use Rattle.od_asked.specs.Asked.{asked_path, asked_surface};
ghost use Rattle.od_columns.specs.Lent.{all_lent};
ghost use Rattle.od_event.specs.Arguments.{argument_codes};
ghost use Rattle.od_pairing.specs.Hop.{part_codes};
ghost use Rattle.od_pattern.specs.declared.rule.Body.TheVariants.{Basic, Event};
ghost use Rattle.od_reach.specs.Code.{code_of};
ghost use Rattle.od_rule.specs.Codes.{part_surfaces, GoOnWith, IsCodeOf, IsPlaced};
ghost use Rattle.od_rule.specs.declared.code.Placed.{Placed as Ready};

use od_columns::{Asking, push_path, push_surface};
use od_machine::compile::compile as compile_surface;
use od_machine::program::Program;
use od_pattern::path::Path;
use od_pattern::pattern::Surface;
use od_pattern::rule::{Argument, Body, EventRule, Hop, HopPart, Rule};
use od_reach::compile::compile as compile_path;
use od_reach::moves::Move;
use od_text::list::List;
use od_text::text::NoMemory;
use std::alloc::Global;

/// The program of a surface pattern, and the row of the table at which what it asks begins.
#[derive(Drop)]
pub struct Placed {
    pub(crate) program: Program,
    pub(crate) first: usize,
}

/// A rule made ready for a table of what it asks, in the order of its text from row 0 on.
#[derive(Drop)]
pub struct RuleCode {
    /// Of each surface pattern.
    pub(crate) programs: List<Placed>,
    /// Of each path.
    pub(crate) moves: List<List<Move>>,
}

/// One thing more: the program of a surface pattern. What it asks follows all that is asked so far.
fn place<'a>(
    alloc: Global,
    surface: &'a Surface,
    asked: &mut Vec<Asking<'a>>,
    programs: &mut List<Placed>,
) -> Result<(), NoMemory>
    ensures asked { OnOk result
        (all_lent asked.new.items ≡ all_lent asked.old.items ++ asked_surface surface.now) }
    ensures program { OnOk result ((placed : Ready) ×
        (programs.new ≡ programs.old ++ placed ∷ [])
        × IsPlaced placed (length asked.old.items, surface.now)) }
{
    let first = asked.len();
    let program = compile_surface(alloc, surface)?;
    push_surface(surface, asked)?;
    programs.push(Placed { program, first })?;
    Ok(())
}

/// One thing more: the moves of a path. What it asks follows all that is asked so far.
fn route<'a>(
    alloc: Global,
    path: &'a Path,
    asked: &mut Vec<Asking<'a>>,
    moves: &mut List<List<Move>>,
) -> Result<(), NoMemory>
    ensures asked { OnOk result
        (all_lent asked.new.items ≡ all_lent asked.old.items ++ asked_path path.now) }
    ensures moves { OnOk result
        (moves.new ≡ moves.old ++ code_of (length asked.old.items) path.now ∷ []) }
{
    let code = compile_path(alloc, path, asked.len())?;
    push_path(path, asked)?;
    moves.push(List::from_vec(code))
}

/// The further parts of a hop, each its path and then its surface.
fn add_parts<'a>(
    alloc: Global,
    parts: &'a [HopPart],
    asked: &mut Vec<Asking<'a>>,
    code: &mut RuleCode,
) -> Result<(), NoMemory>
    ensures programs { OnOk result (GoOnWith code.old.programs code.new.programs
        (part_surfaces (length asked.old.items) parts.now)) }
    ensures moves { OnOk result
        (code.new.moves ≡ code.old.moves ++ part_codes (length asked.old.items) parts.now) }
{
    for part in parts {
        route(alloc, &part.path, asked, &mut code.moves)?;
        place(alloc, &part.surface, asked, &mut code.programs)?;
    }
    Ok(())
}

/// The paths of arguments.
fn add_arguments<'a>(
    alloc: Global,
    arguments: &'a [Argument],
    asked: &mut Vec<Asking<'a>>,
    moves: &mut List<List<Move>>,
) -> Result<(), NoMemory>
    ensures { OnOk result
        (moves.new ≡ moves.old ++ argument_codes (length asked.old.items) arguments.now) }
{
    for argument in arguments {
        route(alloc, &argument.path, asked, moves)?;
    }
    Ok(())
}

/// A hop made ready.
fn hop_code(alloc: Global, hop: &Hop) -> Result<RuleCode, NoMemory>
    ensures { IfOk result (IsCodeOf (Basic hop.now)) }
{
    let mut asked = Vec::new(alloc);
    let mut code = RuleCode {
        programs: List::new(alloc),
        moves: List::new(alloc),
    };
    place(alloc, &hop.first, &mut asked, &mut code.programs)?;
    add_parts(alloc, hop.rest.get(), &mut asked, &mut code)?;
    Ok(code)
}

/// An event rule made ready.
fn event_code(alloc: Global, event: &EventRule) -> Result<RuleCode, NoMemory>
    ensures { IfOk result (IsCodeOf (Event event.now)) }
{
    let mut asked = Vec::new(alloc);
    let mut programs = List::new(alloc);
    let mut moves = List::new(alloc);
    place(alloc, &event.trigger, &mut asked, &mut programs)?;
    add_arguments(alloc, event.arguments.get(), &mut asked, &mut moves)?;
    Ok(RuleCode { programs, moves })
}

impl RuleCode {
    /// Makes a rule ready: a program for each surface pattern, and the moves of each path.
    ///
    /// # Errors
    ///
    /// `NoMemory` where memory is refused, and where a pattern has 2^31 instructions or more.
    pub fn make(alloc: Global, rule: &Rule) -> Result<RuleCode, NoMemory>
        ensures { IfOk result (IsCodeOf rule.now.body) }
    {
        let code = match &rule.body {
            Body::Basic(hop) => hop_code(alloc, hop)?,
            Body::Event(event) => event_code(alloc, event)?,
        };
        Ok(code)
    }
}
