//! The job that words name.

ghost use Rattle.std.specs.Prelude.{◌≡◌, IfOk, IsErrOf, None, Some, codes, false, map, true};
ghost use Rattle.std.specs.String.{string_bytes};
ghost use Rattle.clap.specs.Words.{first_of, found_of, one_of, rows_of, subcommand_of, subcommand_rows_of, takes};
ghost use Rattle.hs_cli.specs.Command.{hipsleek_app};
ghost use Rattle.hs_cli.specs.Job.{HasCheckNumbers, HasNamedNumbers, HasNumber, HasNumbers, HasSearchNumbers, IsInRange, check_job_of, check_options_of, core_job_of, hip_job_of, job_of, number_or, options_of, prove_job_of, run_job_of, run_options_of, search_options_of, sleek_job_of};
ghost use Rattle.hs_cli.specs.declared.error.WordsError.TheVariants.{Words};

use crate::command::hipsleek;
use crate::error::WordsError;
use crate::jobs::{Job, Options};
use clap::ArgMatches;
use hs_text::Text;
use std::alloc::Global;

/// The job of the words, which are those after the program's name.
///
/// `Words` comes where the command does not take the words, and `Memory` where memory runs out.
pub fn job(alloc: Global, words: &[String]) -> Result<Job, WordsError>
    ensures words { IsErrOf result Words → takes hipsleek_app (map string_bytes words.now) ≡ false }
    ensures job { IfOk result (λ j. (takes hipsleek_app (map string_bytes words.now) ≡ true)
        × (job_of (subcommand_of hipsleek_app (map string_bytes words.now)) ≡ Some j)) }
    ensures ranges { IfOk result IsInRange }
{
    let matches = hipsleek(alloc)?.try_get_matches_from(words)?;
    named_job(alloc, &matches)
}

// The job of the subcommand that was met.
fn named_job(alloc: Global, matches: &ArgMatches<'_>) -> Result<Job, WordsError>
    requires { HasNamedNumbers (subcommand_rows_of matches.now) }
    ensures words { IsErrOf result Words → job_of (subcommand_rows_of matches.now) ≡ None }
    ensures job { IfOk result (λ j. job_of (subcommand_rows_of matches.now) ≡ Some j) }
{
    if let Some(sleek) = matches.subcommand_matches("sleek") {
        return sleek_job(alloc, sleek);
    }
    if let Some(hip) = matches.subcommand_matches("hip") {
        return hip_job(alloc, hip);
    }
    if let Some(prove) = matches.subcommand_matches("prove") {
        return prove_job(alloc, prove);
    }
    if let Some(check) = matches.subcommand_matches("check") {
        return check_job(alloc, check);
    }
    if let Some(core) = matches.subcommand_matches("core") {
        return core_job(alloc, core);
    }
    if let Some(run) = matches.subcommand_matches("run") {
        return run_job(alloc, run);
    }
    Err(WordsError::Words)
}

fn sleek_job(alloc: Global, matches: &ArgMatches<'_>) -> Result<Job, WordsError>
    requires { HasNumbers (rows_of (found_of matches.now)) }
    ensures words { IsErrOf result Words → sleek_job_of (rows_of (found_of matches.now)) ≡ None }
    ensures job { IfOk result (λ j. sleek_job_of (rows_of (found_of matches.now)) ≡ Some j) }
{
    let file = word(alloc, matches, "file")?;
    Ok(Job::Sleek(file, options(matches)))
}

fn hip_job(alloc: Global, matches: &ArgMatches<'_>) -> Result<Job, WordsError>
    requires { HasSearchNumbers (rows_of (found_of matches.now)) }
    ensures words { IsErrOf result Words → hip_job_of (rows_of (found_of matches.now)) ≡ None }
    ensures job { IfOk result (λ j. hip_job_of (rows_of (found_of matches.now)) ≡ Some j) }
{
    let file = word(alloc, matches, "file")?;
    Ok(Job::Hip(file, search_options(matches)))
}

fn prove_job(alloc: Global, matches: &ArgMatches<'_>) -> Result<Job, WordsError>
    requires { HasSearchNumbers (rows_of (found_of matches.now)) }
    ensures words { IsErrOf result Words → prove_job_of (rows_of (found_of matches.now)) ≡ None }
    ensures job { IfOk result (λ j. prove_job_of (rows_of (found_of matches.now)) ≡ Some j) }
{
    let file = word(alloc, matches, "file")?;
    Ok(Job::Prove(file, search_options(matches)))
}

fn check_job(alloc: Global, matches: &ArgMatches<'_>) -> Result<Job, WordsError>
    requires { HasCheckNumbers (rows_of (found_of matches.now)) }
    ensures words { IsErrOf result Words → check_job_of (rows_of (found_of matches.now)) ≡ None }
    ensures job { IfOk result (λ j. check_job_of (rows_of (found_of matches.now)) ≡ Some j) }
{
    let source = word(alloc, matches, "file")?;
    let derivation = word(alloc, matches, "derivation")?;
    Ok(Job::Check(source, derivation, check_options(matches)))
}

fn core_job(alloc: Global, matches: &ArgMatches<'_>) -> Result<Job, WordsError>
    ensures words { IsErrOf result Words → core_job_of (rows_of (found_of matches.now)) ≡ None }
    ensures job { IfOk result (λ j. core_job_of (rows_of (found_of matches.now)) ≡ Some j) }
{
    Ok(Job::Core(word(alloc, matches, "file")?))
}

fn run_job(alloc: Global, matches: &ArgMatches<'_>) -> Result<Job, WordsError>
    requires { HasNumber 64 (codes "steps") (rows_of (found_of matches.now)) }
    ensures words { IsErrOf result Words → run_job_of (rows_of (found_of matches.now)) ≡ None }
    ensures job { IfOk result (λ j. run_job_of (rows_of (found_of matches.now)) ≡ Some j) }
{
    let file = word(alloc, matches, "file")?;
    let method = word(alloc, matches, "method")?;
    let heap = word(alloc, matches, "heap")?;
    Ok(Job::Run(file, method, heap, run_options(matches)))
}

// The word that a positional has.
fn word(alloc: Global, matches: &ArgMatches<'_>, id: &str) -> Result<Text, WordsError>
    ensures words { IsErrOf result Words → first_of id.now (rows_of (found_of matches.now)) ≡ None }
    ensures word { IfOk result (λ text. first_of id.now (rows_of (found_of matches.now)) ≡ Some text) }
{
    let word = matches.get_str(id).ok_or(WordsError::Words)?;
    Ok(Text::from_str(alloc, word)?)
}

fn options(matches: &ArgMatches<'_>) -> Options
    requires { HasNumbers (rows_of (found_of matches.now)) }
    ensures { result ≡ options_of (rows_of (found_of matches.now)) }
{
    Options {
        residues: matches.get_one("residues").unwrap_or(4),
        ..search_options(matches)
    }
}

fn search_options(matches: &ArgMatches<'_>) -> Options
    requires { HasSearchNumbers (rows_of (found_of matches.now)) }
    ensures { result ≡ search_options_of (rows_of (found_of matches.now)) }
{
    Options {
        rank: matches.get_one("rank").unwrap_or(12),
        goals: matches.get_one("goals").unwrap_or(20_000),
        atoms: atoms(matches),
        level: matches.get_one("xpure").unwrap_or(1),
        residues: 1,
        pieces: 1,
        steps: 1000,
    }
}

fn atoms(matches: &ArgMatches<'_>) -> u64
    requires { HasNumber 64 (codes "atoms") (rows_of (found_of matches.now)) }
    ensures { result ≡ number_or 200000 (one_of (codes "atoms") (rows_of (found_of matches.now))) }
{
    matches.get_one("atoms").unwrap_or(200_000)
}

fn check_options(matches: &ArgMatches<'_>) -> Options
    requires { HasCheckNumbers (rows_of (found_of matches.now)) }
    ensures { result ≡ check_options_of (rows_of (found_of matches.now)) }
{
    Options {
        rank: 12,
        goals: 20_000,
        atoms: atoms(matches),
        level: 1,
        residues: 4,
        pieces: matches.get_one("pieces").unwrap_or(1),
        steps: 1000,
    }
}

fn run_options(matches: &ArgMatches<'_>) -> Options
    requires { HasNumber 64 (codes "steps") (rows_of (found_of matches.now)) }
    ensures { result ≡ run_options_of (rows_of (found_of matches.now)) }
{
    Options {
        rank: 12,
        goals: 20_000,
        atoms: 200_000,
        level: 1,
        residues: 4,
        pieces: 1,
        steps: matches.get_one("steps").unwrap_or(1000),
    }
}
