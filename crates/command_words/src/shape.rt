//! How many words a command takes behind its name, as `clap` decides it.
ghost use Rattle.std.specs.Prelude.{◌≡◌, ◌==◌, ◌↔◌, [], map, length, codes, IfOk, IsTrue, true, false};
ghost use Rattle.clap.specs.Words.{app_of, fault_of, is_simple_and_free, kind_of, rule_of};
ghost use Rattle.command_words.specs.Shapes.{AllPlain, bare_app, four_app, one_app, required_word};

use clap::error::ErrorKind;
use clap::{Arg, Command};
use std::alloc::{AllocError, Global};

/// A command that takes no words, and neither asks for help nor tells a version.
fn bare<'a>(alloc: Global) -> Command<'a>
    ensures { app_of result ≡ bare_app }
{
    Command::new(alloc, "schedulerd")
        .no_binary_name(true)
        .disable_help_flag(true)
        .disable_version_flag(true)
}

/// A word that has to be given, at its place.
fn positional<'a>(alloc: Global, id: &'a str) -> Arg<'a>
    ensures rule { rule_of result ≡ required_word id.entry.now }
    ensures local { result.global ≡ false }
{
    Arg::new(alloc, id).required(true)
}

fn one<'a>(alloc: Global) -> Result<Command<'a>, AllocError>
    ensures { IfOk result (λ command. app_of command ≡ one_app) }
{
    bare(alloc).arg(positional(alloc, "first"))
}

fn four<'a>(alloc: Global) -> Result<Command<'a>, AllocError>
    ensures { IfOk result (λ command. app_of command ≡ four_app) }
{
    one(alloc)?
        .arg(positional(alloc, "second"))?
        .arg(positional(alloc, "third"))?
        .arg(positional(alloc, "fourth"))
}

/// Whether an error is want of memory.
fn is_memory(kind: ErrorKind) -> bool
    ensures yes { result ≡ true → kind ≡ ErrorKind.OutOfMemory }
    ensures no { kind ≡ ErrorKind.OutOfMemory → result ≡ true }
{
    match kind {
        ErrorKind::OutOfMemory => true,
        _ => false,
    }
}

/// Whether a command takes these words.
fn parses<'a>(command: Command<'a>, words: &'a [&'a str]) -> Result<bool, AllocError>
    requires { is_simple_and_free (app_of command) ≡ true }
    ensures { IfOk result (λ taken. IsTrue taken
        ↔ (fault_of (app_of command.entry) (map (λ word. word.now) words.entry.now) ≡ [])) }
{
    match command.try_get_matches_from(words) {
        Ok(_) => Ok(true),
        Err(error) => {
            if is_memory(error.kind()) {
                Err(AllocError)
            } else {
                Ok(false)
            }
        }
    }
}

/// Whether there are no words.
pub fn takes_none<'a>(alloc: Global, words: &'a [&'a str]) -> Result<bool, AllocError>
    requires { AllPlain (map (λ word. word.now) words.now) }
    ensures { IfOk result (λ taken. IsTrue taken ↔ (length words.entry.now ≡ 0)) }
{
    parses(bare(alloc), words)
}

/// Whether there is one word.
pub fn takes_one<'a>(alloc: Global, words: &'a [&'a str]) -> Result<bool, AllocError>
    requires { AllPlain (map (λ word. word.now) words.now) }
    ensures { IfOk result (λ taken. IsTrue taken ↔ (length words.entry.now ≡ 1)) }
{
    parses(one(alloc)?, words)
}

/// Whether there are four words.
pub fn takes_four<'a>(alloc: Global, words: &'a [&'a str]) -> Result<bool, AllocError>
    requires { AllPlain (map (λ word. word.now) words.now) }
    ensures { IfOk result (λ taken. IsTrue taken ↔ (length words.entry.now ≡ 4)) }
{
    parses(four(alloc)?, words)
}
