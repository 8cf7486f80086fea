//! What a line takes.
ghost use Rattle.std.specs.Prelude.{◌≡◌, ◌<◌, IfOk, length};
ghost use Rattle.ff_name.specs.Address.{IsWellSpelled};
ghost use Rattle.ff_tree.specs.Spelled.{IsVar};

use anyhow::{Context, Result, bail};
use ff_value::{ActId, Domain, Name, PageId, Text, Url, WinId};
use ff_windows::Windows;
use std::alloc::Global;

/// A word, and what stands after it.
pub fn parted(line: &str) -> (&str, &str) {
    line.split_once(' ').unwrap_or((line, ""))
}

/// The number of 32 bits that a word spells.
pub fn number(word: &str) -> Result<u32> {
    Ok(word.parse::<u32>()?)
}

/// The number of 64 bits that a word spells.
pub fn whole(word: &str) -> Result<i64> {
    Ok(word.parse::<i64>()?)
}

/// The first and the last number of a range, which may be one number.
pub fn range(word: &str) -> Result<(u32, u32)> {
    let (first, last) = word.split_once("..").unwrap_or((word, word));
    Ok((number(first)?, number(last)?))
}

/// The text that a word spells: `*N` is N times the letter a.
pub fn text(alloc: Global, word: &str) -> Result<Text> {
    match word.strip_prefix('*') {
        Some(count) => letters(alloc, number(count)?),
        None => Ok(Text::of_str(alloc, word)?),
    }
}

fn letters(alloc: Global, many: u32) -> Result<Text> {
    let letters = vec![in alloc; b'a'; many as usize]?;
    Text::of(alloc, &letters)?.context("a text")
}

/// The name that a word spells.
pub fn name(alloc: Global, word: &str) -> Result<Name> {
    Name::of(alloc, word.as_bytes())?.context("a name")
}

/// The domain that a word spells.
pub fn domain(alloc: Global, word: &str) -> Result<Domain> {
    Domain::of(alloc, word.as_bytes())?.context("a domain")
}

/// The address that a word spells.
pub fn address(alloc: Global, word: &str) -> Result<Url>
    ensures { IfOk result IsWellSpelled }
{
    Ok(Url::read(alloc, word.as_bytes())?)
}

/// The variable whose one letter a word begins with.
pub fn variable(alloc: Global, word: &str) -> Result<Name>
    ensures { IfOk result (λ name. IsVar name) }
{
    match word.as_bytes() {
        [letter, ..] => of_letter(alloc, *letter),
        [] => bail!("no letter"),
    }
}

/// The variable of one letter.
pub fn of_letter(alloc: Global, letter: u8) -> Result<Name>
    ensures { IfOk result (λ name. IsVar name) }
{
    let bytes = [letter];
    match Name::of(alloc, &bytes)? {
        Some(name) => Ok(name),
        None => bail!("no letter"),
    }
}

/// The window whose number a word spells.
pub fn window(windows: &Windows, word: &str) -> Result<WinId>
    ensures { IfOk result (λ n. n.0 < length windows.now.windows) }
{
    let n = number(word)?;
    if n >= windows.next_win().0 {
        bail!("no window: {word}");
    }
    Ok(WinId(n))
}

/// The page whose number a word spells.
pub fn page(windows: &Windows, word: &str) -> Result<PageId>
    ensures { IfOk result (λ page. page.0 < length windows.now.pages) }
{
    let n = number(word)?;
    if n >= windows.next_page().0 {
        bail!("no page: {word}");
    }
    Ok(PageId(n))
}

/// The activation whose number a word spells.
pub fn activation(windows: &Windows, word: &str) -> Result<ActId>
    ensures { IfOk result (λ a. a.0 < length windows.now.acts) }
{
    let a = number(word)?;
    if a >= windows.next_act().0 {
        bail!("no activation: {word}");
    }
    Ok(ActId(a))
}
