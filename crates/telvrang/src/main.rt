// The program: a log as text from standard input or a file, its answers to standard output.
#![tactic(auto)]

ghost use Rattle.std.specs.Prelude.{◌≡◌, ◌≤◌, ◌+◌, length, IfOk};
ghost use Rattle.answers.specs.declared.TheConstants.{LONGEST};

use feed::{Standing, feed};
use std::alloc::{AllocError, Global};
use std::fs::File;
use std::io::{Read, Write};
use std::process::ExitCode;
use std::{env, io};
use tables::{BOOK, SUMS};

// So many bytes are read at once, and so many of answers are written.
const CHUNK: usize = 65_536;

const HELP: &str = "telvrang: the billing ledger of one partition of pilot stations

    telvrang < LOG    answers the log on standard input, or what is typed, line by line
    telvrang LOG      answers the log in a file

A log has one record a line, its fields parted by tabs: O opens an engine (partitions, own, k), D delivers a
transaction (identity, partition set, st, reads, writes), V is a vote (identity, partition, Y or N), K a new
threshold (k), R a read (key, st). Each gets a line of its own, and one for each transaction that it finishes.
An X is a refusal: docs/NUMBERS.md says what each number means, and what to do about it.";

// So many bytes stand in the chunk that are not taken yet, and so stands the log in front of them.
#[derive(Clone, Copy)]
struct Left {
    held: usize,
    standing: Standing,
}

// The lines that are held, answered; what is left, at most the beginning of one line, is moved to the front of the chunk.
fn answer<W: Write + Drop>(
    left: Left,
    at_end: bool,
    chunk: &mut [u8],
    book: &mut [u32],
    sums: &mut [i64],
    answers: &mut [u8],
    output: &mut W,
) -> io::Result<Left>
    requires held { left.held ≤ length chunk.old }
    requires room { LONGEST ≤ length answers.old }
    ensures { IfOk result (λ r. r.held ≤ 512) }
{
    let mut from = 0;
    let mut standing = left.standing;
    let mut full = true;
    while full {
        let fed = feed(
            &chunk[from..left.held],
            at_end,
            standing,
            book,
            sums,
            answers,
        );
        output.write_all(&answers[..fed.wrote])?;
        from += fed.taken;
        standing = fed.standing;
        full = fed.full;
    }
    chunk.copy_within(from..left.held, 0);
    Ok(Left {
        held: left.held - from,
        standing,
    })
}

// Bytes to be filled.
fn bytes(alloc: Global, count: usize) -> Result<Vec<u8>, AllocError>
    ensures { IfOk result (λ v. length v.items ≡ count) }
{
    vec![in alloc; 0u8; count]
}

// What is read goes behind what is held: how many bytes came, none at the end.
fn read_more<R: Read + Drop>(input: &mut R, chunk: &mut [u8], held: usize) -> io::Result<usize>
    requires { held ≤ length chunk.old }
    ensures { IfOk result (λ more. held + more ≤ length chunk.old) }
{
    input.read(&mut chunk[held..])
}

// Chunk after chunk, until nothing more can be read.
fn serve<R: Read + Drop, W: Write + Drop>(
    input: &mut R,
    chunk: &mut [u8],
    book: &mut [u32],
    sums: &mut [i64],
    answers: &mut [u8],
    output: &mut W,
) -> io::Result<()>
    requires chunk { 512 ≤ length chunk.old }
    requires room { LONGEST ≤ length answers.old }
{
    let mut held = 0;
    let mut standing = Standing {
        opened: false,
        skipping: false,
    };
    for _ in 0..u64::MAX {
        let more = read_more(input, chunk, held)?;
        let all = Left {
            held: held + more,
            standing,
        };
        let left = answer(all, more == 0, chunk, book, sums, answers, output)?;
        if more == 0 {
            break;
        }
        held = left.held;
        standing = left.standing;
    }
    output.flush()
}

// With memory of its own.
fn run<R: Read + Drop, W: Write + Drop>(
    alloc: Global,
    mut input: R,
    mut output: W,
) -> io::Result<()> {
    let mut book = vec![in alloc; 0u32; BOOK]?;
    let mut sums = vec![in alloc; 0i64; SUMS]?;
    let mut chunk = bytes(alloc, CHUNK)?;
    let mut answers = bytes(alloc, CHUNK)?;
    serve(
        &mut input,
        &mut chunk,
        &mut book,
        &mut sums,
        &mut answers,
        &mut output,
    )
}

// What a run ended with: an error is told on standard error. An output that nobody reads any more is an end like any other.
fn ended(rt: &HostRuntime, name: &str, outcome: io::Result<()>) -> ExitCode {
    let Err(error) = outcome else {
        return ExitCode::SUCCESS;
    };
    if error.kind() == io::ErrorKind::BrokenPipe {
        return ExitCode::SUCCESS;
    }
    let _told = eprintln!(rt; "telvrang: {name}: {error}");
    ExitCode::FAILURE
}

fn answer_file(rt: &HostRuntime, name: &str) -> io::Result<()> {
    let file = File::open(rt, name)?;
    run(rt.alloc(), file, rt.stdout())
}

fn main(rt: HostRuntime) -> io::Result<ExitCode> {
    let mut words = env::args(&rt)?;
    let _program = words.next();
    let Some(word) = words.next() else {
        return Ok(ended(
            &rt,
            "standard input",
            run(rt.alloc(), rt.stdin(), rt.stdout()),
        ));
    };
    if words.next().is_some() {
        eprintln!(rt; "telvrang: one log at a time\n\n{HELP}")?;
        return Ok(ExitCode::FAILURE);
    }
    if word.as_str() == "--help" || word.as_str() == "-h" {
        println!(rt; "{HELP}")?;
        return Ok(ExitCode::SUCCESS);
    }
    Ok(ended(&rt, word.as_str(), answer_file(&rt, word.as_str())))
}
