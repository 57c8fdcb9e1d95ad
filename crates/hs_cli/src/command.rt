//! The command that the words are read as.

ghost use Rattle.std.specs.Prelude.{◌≡◌, IfOk, false};
ghost use Rattle.clap.specs.Words.{app_of, rule_of, shape_of};
ghost use Rattle.clap.specs.declared.builder.command.Command.TheViews.{out-Command as fields_of};
ghost use Rattle.hs_cli.specs.Command.{atoms_rule, check_shape, core_shape, goals_rule, hipsleek_app, option_rule, pieces_rule, positional_rule, rank_rule, residues_rule, run_shape, search_shape, sleek_shape, steps_rule, xpure_rule};

use clap::builder::ValueParser;
use clap::{Arg, ArgAction, Command, value_parser};
use std::alloc::{AllocError, Global};

/// `hipsleek`, whose words begin after the program's name, with one of its subcommands.
pub(crate) fn hipsleek<'a>(alloc: Global) -> Result<Command<'a>, AllocError>
    ensures { IfOk result (λ c. app_of c ≡ hipsleek_app) }
{
    Command::new(alloc, "hipsleek")
        .no_binary_name(true)
        .subcommand_required(true)
        .disable_help_subcommand(true)
        .subcommand(sleek(alloc)?)?
        .subcommand(search(alloc, "hip")?)?
        .subcommand(search(alloc, "prove")?)?
        .subcommand(check(alloc)?)?
        .subcommand(core(alloc)?)?
        .subcommand(run(alloc)?)
}

fn sleek<'a>(alloc: Global) -> Result<Command<'a>, AllocError>
    ensures { IfOk result (λ c. (shape_of c ≡ sleek_shape) × ((fields_of c).has_globals ≡ false)) }
{
    Command::new(alloc, "sleek")
        .arg(positional(alloc, "file"))?
        .arg(rank(alloc))?
        .arg(goals(alloc))?
        .arg(atoms(alloc))?
        .arg(xpure(alloc))?
        .arg(residues(alloc))
}

// A command that searches for one derivation.
fn search<'a>(alloc: Global, name: &'a str) -> Result<Command<'a>, AllocError>
    ensures { IfOk result (λ c. (shape_of c ≡ search_shape name.entry.now)
        × ((fields_of c).has_globals ≡ false)) }
{
    Command::new(alloc, name)
        .arg(positional(alloc, "file"))?
        .arg(rank(alloc))?
        .arg(goals(alloc))?
        .arg(atoms(alloc))?
        .arg(xpure(alloc))
}

fn check<'a>(alloc: Global) -> Result<Command<'a>, AllocError>
    ensures { IfOk result (λ c. (shape_of c ≡ check_shape) × ((fields_of c).has_globals ≡ false)) }
{
    Command::new(alloc, "check")
        .arg(positional(alloc, "file"))?
        .arg(positional(alloc, "derivation"))?
        .arg(atoms(alloc))?
        .arg(pieces(alloc))
}

fn core<'a>(alloc: Global) -> Result<Command<'a>, AllocError>
    ensures { IfOk result (λ c. (shape_of c ≡ core_shape) × ((fields_of c).has_globals ≡ false)) }
{
    Command::new(alloc, "core").arg(positional(alloc, "file"))
}

fn run<'a>(alloc: Global) -> Result<Command<'a>, AllocError>
    ensures { IfOk result (λ c. (shape_of c ≡ run_shape) × ((fields_of c).has_globals ≡ false)) }
{
    Command::new(alloc, "run")
        .arg(positional(alloc, "file"))?
        .arg(positional(alloc, "method"))?
        .arg(positional(alloc, "heap"))?
        .arg(steps(alloc))
}

fn rank<'a>(alloc: Global) -> Arg<'a>
    ensures { (rule_of result ≡ rank_rule) × (result.global ≡ false) }
{
    option(alloc, "rank", value_parser!(u32).range(0..=64))
}

fn goals<'a>(alloc: Global) -> Arg<'a>
    ensures { (rule_of result ≡ goals_rule) × (result.global ≡ false) }
{
    option(alloc, "goals", value_parser!(u64).range(1..=200_000))
}

fn atoms<'a>(alloc: Global) -> Arg<'a>
    ensures { (rule_of result ≡ atoms_rule) × (result.global ≡ false) }
{
    option(alloc, "atoms", value_parser!(u64).range(1..=2_000_000))
}

fn xpure<'a>(alloc: Global) -> Arg<'a>
    ensures { (rule_of result ≡ xpure_rule) × (result.global ≡ false) }
{
    option(alloc, "xpure", value_parser!(u32).range(0..=3))
}

fn residues<'a>(alloc: Global) -> Arg<'a>
    ensures { (rule_of result ≡ residues_rule) × (result.global ≡ false) }
{
    option(alloc, "residues", value_parser!(u32).range(1..=16))
}

fn pieces<'a>(alloc: Global) -> Arg<'a>
    ensures { (rule_of result ≡ pieces_rule) × (result.global ≡ false) }
{
    option(alloc, "pieces", value_parser!(u32).range(1..=64))
}

fn steps<'a>(alloc: Global) -> Arg<'a>
    ensures { (rule_of result ≡ steps_rule) × (result.global ≡ false) }
{
    option(alloc, "steps", value_parser!(u64).range(0..=1_000_000))
}

fn positional<'a>(alloc: Global, name: &'a str) -> Arg<'a>
    ensures { (rule_of result ≡ positional_rule name.entry.now) × (result.global ≡ false) }
{
    Arg::new(alloc, name).required(true).action(ArgAction::Set)
}

fn option<'a>(alloc: Global, name: &'a str, parser: ValueParser<'a>) -> Arg<'a>
    ensures { (rule_of result ≡ option_rule name.entry.now parser.entry) × (result.global ≡ false) }
{
    Arg::new(alloc, name)
        .long(name)
        .action(ArgAction::Set)
        .value_parser(parser)
}
