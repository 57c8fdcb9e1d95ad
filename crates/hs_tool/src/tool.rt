//! The whole job.

ghost use Rattle.std.specs.Prelude.{◌≤◌, IfOk, length, map};
ghost use Rattle.std.specs.String.{string_bytes};
ghost use Rattle.hs_io.specs.Faults.{Rose};
ghost use Rattle.hs_cli.specs.Job.{AreInRange, IsInRange};
ghost use Rattle.hs_tool.specs.Reply.{IsFileReply, IsSourceReply};
ghost use Rattle.hs_tool.specs.Sleek.{IsSleekReply};
ghost use Rattle.hs_tool.specs.Hip.{IsHipReply};
ghost use Rattle.hs_tool.specs.Proofs.{IsProveReply, IsCheckReply};
ghost use Rattle.hs_tool.specs.Programs.{IsCoreReply, IsRunReply};
ghost use Rattle.hs_tool.specs.Run.{source_limit, proof_limit, job_named, IsReply, IsReport, Ends};

use crate::fetching::{Fetched, fetch};
use crate::hip::hip_reply;
use crate::laws::statuses_have_causes;
use crate::output::write_all;
use crate::programs::{core_reply, run_reply};
use crate::proofs::{check_reply, prove_reply};
use crate::reply::{Reply, alone, lines};
use crate::sleek::sleek_reply;
use crate::statuses::status;
use crate::{Line, PROOF_LIMIT, SOURCE_LIMIT};
use hs_cli::{Job, Options, WordsError, job};
use hs_io::{Files, PutError, Sink};
use hs_print::text;
use hs_pure::NoMemory;
use hs_text::Text;
use sqlite_items::Items;
use std::alloc::Global;
use std::thread::Threads;

/// Does what the words of the command line ask for, writes the report and answers the status: 0 where every
/// verdict is good, 1 where one is not, 2 where a file is refused, 3 where the words name no job, 4 where
/// a file could not be had, 5 where the sink failed, and 6 for want of memory.
pub fn run_tool<H, F, K, W>(
    rt: &H,
    alloc: Global,
    words: &[String],
    files: &mut F,
    sink: &mut K,
    watch: &W,
) -> u8
where
    H: Threads + Sync,
    F: Files,
    K: Sink,
    W: Fn(u32) + Sync,
    requires { W.IsAlwaysCallable watch.now }
    // A right report was written as far as the status says, and each status has its cause.
    ensures { Ends (F.texts files.old) (F.faults files.old) (F.faults files.new) (job_named (map string_bytes words.now))
        (K.faults sink.old) (K.faults sink.new) (K.written sink.old) (K.written sink.new) result }
{
    let _ = rt;
    statuses_have_causes();
    let Ok(report) = report_for(alloc, words, files, watch) else {
        return 6;
    };
    let Ok(text) = text(alloc, report.as_slice()) else {
        return 6;
    };
    match write_all(sink, text.as_bytes()) {
        Ok(()) => status(report.as_slice()),
        Err(PutError::Failed) => 5,
        Err(PutError::Memory) => 6,
    }
}

// The report for the words.
fn report_for<F: Files, W: Fn(u32) + Sync>(
    alloc: Global,
    words: &[String],
    files: &mut F,
    watch: &W,
) -> Result<Items<Line>, NoMemory>
    requires watch { W.IsAlwaysCallable watch.now }
    ensures { IfOk result (IsReport (F.texts files.old) (F.faults files.old) (F.faults files.new) (job_named (map string_bytes words.now))) }
{
    match job(alloc, words) {
        Ok(job) => Ok(lines(alloc, job_reply(alloc, job, files, watch)?)?),
        Err(WordsError::Words) => Ok(alone(alloc, Line::RefusedWords)?),
        Err(WordsError::Memory) => Err(NoMemory),
    }
}

// The reply to a job.
fn job_reply<F: Files, W: Fn(u32) + Sync>(
    alloc: Global,
    job: Job,
    files: &mut F,
    watch: &W,
) -> Result<Reply, NoMemory>
    requires range { IsInRange job }
    requires watch { W.IsAlwaysCallable watch.now }
    ensures { IfOk result (IsReply (F.texts files.old) (F.faults files.old) (F.faults files.new) job) }
{
    match job {
        Job::Sleek(name, options) => sleek_file(alloc, name, options, files),
        Job::Hip(name, options) => hip_file(alloc, name, options, files),
        Job::Prove(name, options) => prove_file(alloc, name, options, files),
        Job::Check(file, proof, options) => {
            check_files(alloc, file, proof, options, files, watch)
        }
        Job::Core(name) => core_file(alloc, name, files),
        Job::Run(file, method, heap, options) => {
            run_files(alloc, file, &method, heap, options.steps, files)
        }
    }
}

// The reply to a file of entailments.
fn sleek_file<F: Files>(
    alloc: Global,
    name: Text,
    options: Options,
    files: &mut F,
) -> Result<Reply, NoMemory>
    requires { AreInRange options }
    ensures { IfOk result (IsFileReply (F.texts files.old) (Rose (F.faults files.old) (F.faults files.new)) source_limit name (IsSourceReply (IsSleekReply options))) }
{
    match fetch(alloc, name, SOURCE_LIMIT, files)? {
        Fetched::Bytes(source) => sleek_reply(alloc, &source, options),
        Fetched::Missing(reply) => Ok(reply),
    }
}

// The reply to a file whose methods are verified.
fn hip_file<F: Files>(
    alloc: Global,
    name: Text,
    options: Options,
    files: &mut F,
) -> Result<Reply, NoMemory>
    requires { AreInRange options }
    ensures { IfOk result (IsFileReply (F.texts files.old) (Rose (F.faults files.old) (F.faults files.new)) source_limit name (IsSourceReply (IsHipReply options))) }
{
    match fetch(alloc, name, SOURCE_LIMIT, files)? {
        Fetched::Bytes(source) => hip_reply(alloc, &source, options),
        Fetched::Missing(reply) => Ok(reply),
    }
}

// The reply to a file whose claims are proved.
fn prove_file<F: Files>(
    alloc: Global,
    name: Text,
    options: Options,
    files: &mut F,
) -> Result<Reply, NoMemory>
    requires { AreInRange options }
    ensures { IfOk result (IsFileReply (F.texts files.old) (Rose (F.faults files.old) (F.faults files.new)) source_limit name (IsSourceReply (IsProveReply options))) }
{
    match fetch(alloc, name, SOURCE_LIMIT, files)? {
        Fetched::Bytes(source) => prove_reply(alloc, &source, options),
        Fetched::Missing(reply) => Ok(reply),
    }
}

// The reply to a file against whose claims the derivation in another is checked.
fn check_files<F: Files, W: Fn(u32) + Sync>(
    alloc: Global,
    file: Text,
    proof: Text,
    options: Options,
    files: &mut F,
    watch: &W,
) -> Result<Reply, NoMemory>
    requires range { AreInRange options }
    requires watch { W.IsAlwaysCallable watch.now }
    ensures { IfOk result (IsFileReply (F.texts files.old) (Rose (F.faults files.old) (F.faults files.new)) source_limit file (λ source.
        IsFileReply (F.texts files.old) (Rose (F.faults files.old) (F.faults files.new)) proof_limit proof (λ text. IsSourceReply (IsCheckReply text options) source))) }
{
    match fetch(alloc, file, SOURCE_LIMIT, files)? {
        Fetched::Bytes(source) => check_source(alloc, &source, proof, options, files, watch),
        Fetched::Missing(reply) => Ok(reply),
    }
}

// The reply to a source against whose claims the derivation in a file is checked.
fn check_source<F: Files, W: Fn(u32) + Sync>(
    alloc: Global,
    source: &[u8],
    proof: Text,
    options: Options,
    files: &mut F,
    watch: &W,
) -> Result<Reply, NoMemory>
    requires few { length source.now ≤ source_limit }
    requires range { AreInRange options }
    requires watch { W.IsAlwaysCallable watch.now }
    ensures reply { IfOk result (IsFileReply (F.texts files.old) (Rose (F.faults files.old) (F.faults files.new)) proof_limit proof (λ text. IsSourceReply (IsCheckReply text options) source.now)) }
    ensures later { F.faults files.old ≤ F.faults files.new }
{
    match fetch(alloc, proof, PROOF_LIMIT, files)? {
        Fetched::Bytes(text) => check_reply(alloc, source, &text, options, watch),
        Fetched::Missing(reply) => Ok(reply),
    }
}

// The reply to a file whose core program is printed.
fn core_file<F: Files>(alloc: Global, name: Text, files: &mut F) -> Result<Reply, NoMemory>
    ensures { IfOk result (IsFileReply (F.texts files.old) (Rose (F.faults files.old) (F.faults files.new)) source_limit name (IsSourceReply IsCoreReply)) }
{
    match fetch(alloc, name, SOURCE_LIMIT, files)? {
        Fetched::Bytes(source) => core_reply(alloc, &source),
        Fetched::Missing(reply) => Ok(reply),
    }
}

// The reply to a file whose method is run on the heap text of another.
fn run_files<F: Files>(
    alloc: Global,
    file: Text,
    method: &Text,
    heap: Text,
    steps: u64,
    files: &mut F,
) -> Result<Reply, NoMemory>
    ensures { IfOk result (IsFileReply (F.texts files.old) (Rose (F.faults files.old) (F.faults files.new)) source_limit file (λ source.
        IsFileReply (F.texts files.old) (Rose (F.faults files.old) (F.faults files.new)) source_limit heap (λ text. IsSourceReply (IsRunReply method.now text steps) source))) }
{
    match fetch(alloc, file, SOURCE_LIMIT, files)? {
        Fetched::Bytes(source) => run_source(alloc, &source, method, heap, steps, files),
        Fetched::Missing(reply) => Ok(reply),
    }
}

// The reply to a source whose method is run on the heap text of a file.
fn run_source<F: Files>(
    alloc: Global,
    source: &[u8],
    method: &Text,
    heap: Text,
    steps: u64,
    files: &mut F,
) -> Result<Reply, NoMemory>
    requires few { length source.now ≤ source_limit }
    ensures reply { IfOk result (IsFileReply (F.texts files.old) (Rose (F.faults files.old) (F.faults files.new)) source_limit heap (λ text. IsSourceReply (IsRunReply method.now text steps) source.now)) }
    ensures later { F.faults files.old ≤ F.faults files.new }
{
    match fetch(alloc, heap, SOURCE_LIMIT, files)? {
        Fetched::Bytes(text) => run_reply(alloc, source, method, &text, steps),
        Fetched::Missing(reply) => Ok(reply),
    }
}
