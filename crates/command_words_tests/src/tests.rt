//! Words by hand, and what each command line asks for.
use command_words::{Command, WordsFault, read_command};
use std::alloc::Global;
use std::fmt::Write;
use std::test::Fail;

/// The words of a line.
fn words_of(alloc: Global, line: &str) -> Result<Vec<String>, Fail> {
    let mut words = Vec::new(alloc);
    for word in line.split_whitespace() {
        words.push(String::from_str(alloc, word)?)?;
    }
    Ok(words)
}

fn show_run(out: &mut String, numbers: [u32; 3], keep: Option<u32>) -> Result<(), Fail> {
    let [threads, buffer, merge] = numbers;
    write!(out, "run {threads} {buffer} {merge}")?;
    match keep {
        Some(keep) => Ok(write!(out, " keep {keep}")?),
        None => Ok(()),
    }
}

/// The subcommand and its numbers.
fn show(out: &mut String, command: Command) -> Result<(), Fail> {
    match command {
        Command::Run {
            threads,
            buffer,
            merge,
            keep,
        } => show_run(out, [threads, buffer, merge], keep),
        Command::Ask { commit: None } => Ok(out.push_str("ask")?),
        Command::Ask {
            commit: Some(number),
        } => Ok(write!(out, "ask {number}")?),
        Command::List => Ok(out.push_str("list")?),
        Command::Check => Ok(out.push_str("check")?),
        Command::Make {
            seed,
            lines,
            callers,
        } => Ok(write!(out, "make {seed} {lines} {callers}")?),
    }
}

/// What the words of a line ask for, or that they are refused.
fn answer(alloc: Global, line: &str, out: &mut String) -> Result<(), Fail> {
    let words = words_of(alloc, line)?;
    match read_command(alloc, words.as_slice()) {
        Ok(command) => show(out, command),
        Err(WordsFault::Words) => Ok(out.push_str("refused")?),
        Err(WordsFault::NoMemory) => Ok(out.push_str("no memory")?),
    }
}

/// Command lines, each with what it asks for behind its last `=>`.
const ACCEPTED: &str = "\
run => run 4 1000 8
run --threads 16 => run 16 1000 8
run --buffer 65536 => run 4 65536 8
run --merge 64 => run 4 1000 64
run --merge 2 --threads 1 --buffer 1 => run 1 1 2
run --threads=2 => run 2 1000 8
run --threads 02 => run 2 1000 8
run --threads +2 => run 2 1000 8
run --threads=+2 -- => run 2 1000 8
run --keep 1 => run 4 1000 8 keep 1
run --keep 1000 => run 4 1000 8 keep 1000
run --keep=5 => run 4 1000 8 keep 5
run --merge 2 --keep 7 --threads 1 => run 1 1000 2 keep 7
run --keep 7 --merge 64 --buffer 65536 --threads 16 => run 16 65536 64 keep 7
ask => ask
ask --commit 0 => ask 0
ask --commit 9223372036854775807 => ask 9223372036854775807
list => list
list -- => list
check => check
make --seed 0 --lines 1 --callers 1 => make 0 1 1
make --callers 256 --seed 2147483647 --lines 1000000 => make 2147483647 1000000 256
";

#[test]
fn accepted(rt: HostRuntime) -> Result<(), Fail> {
    let mut out = String::new(rt.alloc());
    for line in ACCEPTED.lines() {
        let (words, wanted) = line.split_once(" => ").ok_or("no answer")?;
        out.clear();
        answer(rt.alloc(), words, &mut out)?;
        assert!(rt; out.as_str() == wanted, "at {line}");
    }
    Ok(())
}

/// Command lines that are refused. The first one has no word.
const REFUSED: &str = "
help
--help
-h
help run
run --help
list -h
--version
start
ru
RUN
run extra
run list
run -- extra
-- run
--threads 2 run
run -threads 2
run -t 2
run --thread 2
run --threads
run --threads=
run --threads two
run --threads 2.0
run --threads -1
run --threads ++2
run --threads 2 3
run --threads 2,3
run --threads 0
run --threads 17
run --buffer 0
run --buffer 65537
run --merge 1
run --merge 65
run --keep
run --keep=
run --keep 0
run --keep 1001
run --keep -1
run --keep 4294967297
run --threads 2 --threads 2
run --keep 5 --keep 5
run --keep --threads 2
run --commit 1
run --seed 1
ask --commit 9223372036854775808
ask --commit 18446744073709551616
ask --commit 1 --commit 1
ask --threads 2
ask --keep 1
list --commit 1
list extra
check --commit 1
check extra
make
make --lines 1 --callers 1
make --seed 1 --callers 1
make --seed 1 --lines 1
make --seed 2147483648 --lines 1 --callers 1
make --seed 1 --lines 0 --callers 1
make --seed 1 --lines 1000001 --callers 1
make --seed 1 --lines 1 --callers 0
make --seed 1 --lines 1 --callers 257
make --seed 1 --lines 1 --callers 1 --keep 1
";

#[test]
fn refused(rt: HostRuntime) -> Result<(), Fail> {
    let mut out = String::new(rt.alloc());
    for line in REFUSED.lines() {
        out.clear();
        answer(rt.alloc(), line, &mut out)?;
        assert!(rt; out.as_str() == "refused", "at {line}");
    }
    Ok(())
}
