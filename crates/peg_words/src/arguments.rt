// The arguments of a command, as the parser of command lines reads them: texts, exactly so many, and
// no option is known.
ghost use Rattle.std.specs.Prelude.{◌≡◌, ◌≢◌, ◌<◌, IfOk, Err, length, false};
ghost use Rattle.std.specs.List.{list_any};
ghost use Rattle.std.specs.String.{string_bytes};
ghost use Rattle.clap.specs.Words.{app_of, rule_of, kind_of};
ghost use Rattle.peg_words.specs.Arguments as told;
ghost use Rattle.peg_words.specs.Arguments.{is_dashed};

use crate::WordFault;
use clap::error::ErrorKind;
use clap::{Arg, Command, Error};
use std::alloc::{AllocError, Global};

fn parser<'a>(alloc: Global) -> Command<'a>
    ensures { app_of result ≡ told.parser }
{
    Command::new(alloc, "peg")
        .no_binary_name(true)
        .disable_help_flag(true)
}

// One argument, whose values are so many words.
fn values<'a>(alloc: Global, count: usize) -> Arg<'a>
    ensures rule { rule_of result ≡ told.values count }
    ensures own { result.global ≡ false }
{
    Arg::new(alloc, "arguments").required(true).num_args(count)
}

fn fault_of(error: &Error) -> WordFault
    ensures { result ≡ WordFault.Usage → kind_of error.now ≢ ErrorKind.OutOfMemory }
{
    match error.kind() {
        ErrorKind::OutOfMemory => WordFault::OutOfMemory,
        _ => WordFault::Usage,
    }
}

#[tactic(auto, using(crate::proofs::Parsed::told_none, crate::proofs::Parsed::told_some))]
fn command<'a>(alloc: Global, count: usize) -> Result<Command<'a>, AllocError>
    ensures { IfOk result (λ c. app_of c ≡ told.parser_of count) }
{
    if count == 0 {
        Ok(parser(alloc))
    } else {
        let command = parser(alloc).arg(values(alloc, count))?;
        Ok(command)
    }
}

// There are so many, each without a hyphen.
pub(crate) fn exactly(alloc: Global, count: usize, words: &[String]) -> Result<(), WordFault>
    requires free { list_any (λ word. is_dashed (string_bytes word)) words.now ≡ false }
    requires few { count < 100 }
    ensures count { IfOk result (λ _. length words.now ≡ count) }
    ensures others { result ≡ Err WordFault.Usage → length words.now ≢ count }
{
    match command(alloc, count)?.try_get_matches_from(words) {
        Ok(_) => Ok(()),
        Err(error) => Err(fault_of(&error)),
    }
}
