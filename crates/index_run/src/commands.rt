//! The commands: what each does, and the text that it makes.
ghost use Rattle.std.specs.Prelude.{◌≡◌, ◌≤◌, ◌<◌, ◌+◌, ◌^◌, ◌∷◌, [], ℕ, List, OnOk, IfOk, IfErr, IsErrAnd, Err, Some, None};
ghost use Rattle.std.specs.Io.KnownBytes.{IsAtEnd};
ghost use Rattle.command_words.specs.Accepted.{InRange};
ghost use Rattle.ix_outside.specs.Disk.{told_files};
ghost use Rattle.op_script.specs.Language.{most_bytes};
ghost use Rattle.op_script.specs.declared.script.BadLine.{BadLine};
ghost use Rattle.report_text.specs.declared.fault.Fault.{Fault};
ghost use Rattle.run_log.specs.Headline.{CanRun, Given};
ghost use Rattle.ix_outside.specs.Files.{Files};
ghost use Rattle.index_run.specs.Beginning.{CanBeginOn};
ghost use Rattle.index_run.specs.Causes.{IsOneOf, LeavesStoreBy, TakesUpTo, stop_status};
ghost use Rattle.index_run.specs.Commands.{IsBad, ReadsInput, command_of, keep_by, keep_of};
ghost use Rattle.index_run.specs.Keeping.{PreservesBy, StepsBy};
ghost use Rattle.index_run.specs.Endings.{Caused, CausedBy};
ghost use Rattle.index_run.specs.Promises.{Does};

use crate::answering::{answer, show};
use crate::checking::check_commits;
use crate::doing::{Done, Options, do_script};
use crate::reading::{read_lines, read_questions};
use crate::stop::Stop;
use crate::telling::Form;
use crate::words::read_command;
use command_words::Command;
use ix_outside::{Gate, Source, Store};
use script_maker::make_script;
use std::alloc::Global;
use std::sync::Wait;
use std::thread::Threads;

/// How `make` runs its script.
const MADE: Options = Options {
    threads: 4,
    buffer: 64,
    merge: 4,
    keep: None,
};

/// Does a command, and returns the text that it writes, of which nothing is written yet.
pub fn do_command<R: Threads + Wait + Sync, I: Source, S: Store, G: Gate>(
    rt: &R,
    alloc: Global,
    command: Command,
    input: &mut I,
    store: S,
    gate: &G,
) -> Done<S>
    requires ranges { InRange command }
    ensures does { Does command (record {
      input = I.left input.old;
      store = S.disk store;
      left = S.disk result.store;
      text = result.text;
    }) }
    ensures caused { (f : Fault) → result.text ≡ Err (Stop.Fault f) → Caused command (record {
      input = I.left input.old;
      store = S.disk store;
      left = S.disk result.store;
      source_before = I.fault_count input.old;
      source_after = I.fault_count input.new;
      store_before = S.fault_count store;
      store_after = S.fault_count result.store;
    }) f }
    ensures bad { (bytes : List ℕ) (bad : BadLine) → I.left input.old ≡ Some bytes
        → IsBad command bytes bad
        → IsErrAnd result.text (λ stop. IsOneOf (stop_status stop) (3 ∷ 4 ∷ 5 ∷ [])) }
    ensures steps { StepsBy (keep_of command) (S.disk store) (S.disk result.store) }
    ensures kept { (g : Given) → told_files (S.disk store) ≡ Some g.files → CanRun g
        → PreservesBy (keep_of command) g (S.disk store) (S.disk result.store) }
    ensures unopened { IfErr result.text (λ stop. IsOneOf (stop_status stop) (3 ∷ 5 ∷ [])
        → result.store ≡ store) }
    ensures untouched { IfErr result.text (λ stop. LeavesStoreBy (keep_of command) (stop_status stop)
        → S.disk result.store ≡ S.disk store) }
    ensures unbegun { (files : Files) → told_files (S.disk store) ≡ Some files
        → (CanBeginOn files → ⊥) → S.disk result.store ≡ S.disk store }
    ensures end { ReadsInput command → OnOk result.text (IsAtEnd (I.left input.new)) }
    ensures unread { (ReadsInput command → ⊥) → input.new ≡ input.old }
    ensures bound { TakesUpTo (most_bytes + 1) (I.left input.old) (I.left input.new) }
    ensures others { IfErr result.text (λ stop.
        IsOneOf (stop_status stop) (3 ∷ 4 ∷ 5 ∷ 7 ∷ 8 ∷ 9 ∷ 10 ∷ 11 ∷ [])) }
{
    match command {
        Command::Run {
            threads,
            buffer,
            merge,
            keep,
        } => {
            let options = Options {
                threads,
                buffer,
                merge,
                keep,
            };
            match read_lines(alloc, input) {
                Ok(lines) => do_script(rt, alloc, store, gate, options, Form::Report, lines),
                Err(stop) => Done {
                    text: Err(stop),
                    store,
                },
            }
        }
        Command::Ask { commit } => match read_questions(alloc, input) {
            Ok(asked) => answer(alloc, store, commit, asked),
            Err(stop) => Done {
                text: Err(stop),
                store,
            },
        },
        Command::List => show(alloc, store),
        Command::Check => check_commits(alloc, store),
        Command::Make {
            seed,
            lines,
            callers,
        } => match make_script(alloc, seed, lines, callers) {
            Ok(script) => do_script(rt, alloc, store, gate, MADE, Form::Summary, script.lines),
            Err(_) => Done {
                text: Err(Stop::NoMemory),
                store,
            },
        },
    }
}

/// Does the command that the words are, and returns the text that it writes, of which nothing is
/// written yet, or why it stopped.
pub fn come_to<R: Threads + Wait + Sync, I: Source, S: Store, G: Gate>(
    rt: &R,
    alloc: Global,
    words: &[String],
    input: &mut I,
    store: S,
    gate: &G,
) -> Done<S>
    ensures does { (c : Command) → command_of words.now ≡ Some c → Does c (record {
      input = I.left input.old;
      store = S.disk store;
      left = S.disk result.store;
      text = result.text;
    }) }
    ensures caused { (f : Fault) → result.text ≡ Err (Stop.Fault f)
        → CausedBy (command_of words.now) (record {
          input = I.left input.old;
          store = S.disk store;
          left = S.disk result.store;
          source_before = I.fault_count input.old;
          source_after = I.fault_count input.new;
          store_before = S.fault_count store;
          store_after = S.fault_count result.store;
        }) f }
    ensures words { command_of words.now ≡ None
        → IsErrAnd result.text (λ stop. IsOneOf (stop_status stop) (2 ∷ 4 ∷ [])) }
    ensures bad { (c : Command) (bytes : List ℕ) (bad : BadLine) → command_of words.now ≡ Some c
        → I.left input.old ≡ Some bytes → IsBad c bytes bad
        → IsErrAnd result.text (λ stop. IsOneOf (stop_status stop) (3 ∷ 4 ∷ 5 ∷ [])) }
    ensures steps { StepsBy (keep_by (command_of words.now)) (S.disk store) (S.disk result.store) }
    ensures kept { (g : Given) → told_files (S.disk store) ≡ Some g.files → CanRun g
        → PreservesBy (keep_by (command_of words.now)) g (S.disk store) (S.disk result.store) }
    ensures unopened { IfErr result.text (λ stop. IsOneOf (stop_status stop) (2 ∷ 3 ∷ 5 ∷ [])
        → result.store ≡ store) }
    ensures untouched { IfErr result.text (λ stop.
        LeavesStoreBy (keep_by (command_of words.now)) (stop_status stop)
        → S.disk result.store ≡ S.disk store) }
    ensures unbegun { (files : Files) → told_files (S.disk store) ≡ Some files
        → (CanBeginOn files → ⊥) → S.disk result.store ≡ S.disk store }
    ensures end { (c : Command) → command_of words.now ≡ Some c → ReadsInput c
        → OnOk result.text (IsAtEnd (I.left input.new)) }
    ensures unread { IfErr result.text (λ stop. stop_status stop ≡ 2 → input.new ≡ input.old) }
    ensures alone { (c : Command) → command_of words.now ≡ Some c → (ReadsInput c → ⊥)
        → input.new ≡ input.old }
    ensures bound { TakesUpTo (most_bytes + 1) (I.left input.old) (I.left input.new) }
    ensures others { IfErr result.text (λ stop.
        IsOneOf (stop_status stop) (2 ∷ 3 ∷ 4 ∷ 5 ∷ 7 ∷ 8 ∷ 9 ∷ 10 ∷ 11 ∷ [])) }
{
    match read_command(alloc, words) {
        Ok(command) => do_command(rt, alloc, command, input, store, gate),
        Err(stop) => Done {
            text: Err(stop),
            store,
        },
    }
}
