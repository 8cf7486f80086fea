//! Kinds of nodes by their words, and addresses by their texts.
ghost use Rattle.std.specs.Prelude.{◌≡◌, ◌≢◌, MatchOption, IfOk, IfSome};
ghost use Rattle.ff_name.specs.Address.{IsWellSpelled};
ghost use Rattle.ff_name.specs.Reading.{read_url};
ghost use Rattle.ff_machine.specs.Kinds.{kind_word};
ghost use Rattle.ff_machine.specs.declared.kinds.Kind.{Kind};

use ff_machine::Kind;
use ff_name::{NoMemory, Text, Url, UrlFault, by_word};
use std::alloc::{AllocError, Global};

/// The kind of a word, or `None` where no kind has it.
pub(crate) fn kind_named(word: &str) -> Option<Kind>
    ensures { MatchOption result ((kind : Kind) → kind_word kind ≢ word.now)
        (λ kind. kind_word kind ≡ word.now) }
{
    by_word::<Kind>(word.as_bytes())
}

/// The address that a text spells, or `None` where it spells none.
pub(crate) fn read_address(alloc: Global, text: &Text) -> Result<Option<Url>, NoMemory>
    ensures value { IfOk result (λ found. found ≡ read_url text.now) }
    ensures spelled { IfOk result (λ found. IfSome found IsWellSpelled) }
{
    match Url::read(alloc, text.as_bytes()) {
        Ok(url) => Ok(Some(url)),
        Err(fault) => match fault {
            UrlFault::NoMemory => Err(AllocError),
            _ => Ok(None),
        },
    }
}
