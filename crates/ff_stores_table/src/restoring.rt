//! Stores as records: of records that lines give, and of the stores of a case.
ghost use Rattle.std.specs.Prelude.{◌≡◌};
ghost use Rattle.ff_records.specs.Records.{counts_of};

use crate::reading::{domain, name, number, parted, text, whole};
use crate::requests::destination;
use crate::stores::Stores;
use anyhow::{Context, Result, bail};
use ff_contract::Steps;
use ff_machine::{Entry, Pending};
use ff_net::{Jar, Requests};
use ff_records::{
    ActRec, ActRecs, AskRec, AskRecs, CookieRec, CookieRecs, Entries, PageRec, PageRecs, Variable,
    Vars, WinIds, WinRec, WinRecs,
};
use ff_script::read_body;
use ff_value::{ActId, Code, Name, Names, NodeId, PageId, Url, Val, WinId};
use ff_windows::Windows;
use std::alloc::Global;
use std::mem;
use std::sync::ledger::Ledger;

/// An activation that lines give.
#[derive(Drop)]
struct NotedAct {
    parent: Option<ActId>,
    vars: Vec<Variable>,
}

/// A page that lines give.
#[derive(Drop)]
struct NotedPage {
    url: Url,
    win: WinId,
    root: NodeId,
    act: ActId,
    next: u32,
    queue: Vec<Entry>,
}

/// The records that lines gave.
#[derive(Drop)]
pub struct Records {
    cookies: Vec<CookieRec>,
    asks: Vec<AskRec>,
    acts: Vec<NotedAct>,
    pages: Vec<NotedPage>,
    wins: Vec<WinRec>,
    opened: Vec<WinId>,
}

impl Records {
    /// No records.
    pub fn new(alloc: Global) -> Records {
        Records {
            cookies: Vec::new(alloc),
            asks: Vec::new(alloc),
            acts: Vec::new(alloc),
            pages: Vec::new(alloc),
            wins: Vec::new(alloc),
            opened: Vec::new(alloc),
        }
    }
}

/// What a line gives.
pub fn take<C: Ledger>(
    alloc: Global,
    stores: &mut Stores,
    line: &str,
    copies: &mut Steps<C>,
) -> Result<String> {
    let (word, rest) = parted(line);
    match word {
        "saved" => saved(alloc, stores, copies),
        "restore" => {
            let given = mem::replace(&mut stores.records, Records::new(alloc));
            restored(alloc, given, copies)
        }
        _ => {
            note(alloc, &mut stores.records, word, rest)?;
            Ok(format!(in alloc; "noted")?)
        }
    }
}

/// Notes the record of a line.
fn note(alloc: Global, records: &mut Records, word: &str, rest: &str) -> Result<()> {
    match word {
        "cookie" => records.cookies.push(cookie(alloc, rest)?)?,
        "ask" => records.asks.push(ask(alloc, rest)?)?,
        "act" => {
            let parent = optional(rest)?.map(ActId);
            let vars = Vec::new(alloc);
            records.acts.push(NotedAct { parent, vars })?;
        }
        "var" => {
            let act = records.acts.last_mut().context("an activation")?;
            act.vars.push(variable(alloc, rest)?)?;
        }
        "page" => records.pages.push(page(alloc, rest)?)?,
        "wait" => {
            let page = records.pages.last_mut().context("a page")?;
            page.queue.push(Entry::Wait(number(rest)?))?;
        }
        "ready" => {
            let page = records.pages.last_mut().context("a page")?;
            page.queue.push(Entry::Ready(read_body(alloc, rest)?))?;
        }
        "win" => records.wins.push(win(alloc, rest)?)?,
        "open" => records.opened.push(WinId(number(rest)?))?,
        _ => bail!("no record: {word}"),
    }
    Ok(())
}

fn cookie(alloc: Global, words: &str) -> Result<CookieRec> {
    let (of, rest) = parted(words);
    let (key, value) = parted(rest);
    Ok(CookieRec {
        domain: domain(alloc, of)?,
        key: text(alloc, key)?,
        value: text(alloc, value)?,
    })
}

fn ask(alloc: Global, words: &str) -> Result<AskRec> {
    let (to, rest) = parted(words);
    let (uri, dst) = parted(rest);
    let pending = Pending {
        uri: text(alloc, uri)?,
        dst: destination(alloc, dst)?,
    };
    Ok(AskRec {
        domain: domain(alloc, to)?,
        pending,
    })
}

fn page(alloc: Global, words: &str) -> Result<NotedPage> {
    let (url, rest) = parted(words);
    let (win, rest) = parted(rest);
    let (root, rest) = parted(rest);
    let (act, next) = parted(rest);
    Ok(NotedPage {
        url: Url::read(alloc, url.as_bytes())?,
        win: WinId(number(win)?),
        root: NodeId(number(root)?),
        act: ActId(number(act)?),
        next: number(next)?,
        queue: Vec::new(alloc),
    })
}

fn win(alloc: Global, words: &str) -> Result<WinRec> {
    let (page, rest) = parted(words);
    let (opener, called) = parted(rest);
    let name = match called {
        "-" => None,
        _ => Some(text(alloc, called)?),
    };
    Ok(WinRec {
        page: PageId(number(page)?),
        opener: optional(opener)?.map(WinId),
        name,
    })
}

fn variable(alloc: Global, words: &str) -> Result<Variable> {
    let (called, value) = parted(words);
    let (word, rest) = parted(value);
    let value = match word {
        "number" => Val::Num(whole(rest)?),
        "text" => Val::Str(text(alloc, rest)?),
        "function" => Val::Code(function(alloc, rest)?),
        _ => bail!("no value: {word}"),
    };
    Ok(Variable {
        name: name(alloc, called)?,
        value,
    })
}

/// A function of an activation, whose parameters are letters.
pub fn function(alloc: Global, words: &str) -> Result<Code> {
    let (env, rest) = parted(words);
    let (letters, body) = parted(rest);
    let mut params = Vec::new(alloc);
    for letter in letters.as_bytes() {
        let bytes = [*letter];
        params.push(Name::of(alloc, &bytes)?.context("a letter")?)?;
    }
    Ok(Code {
        params: Names::from_vec(alloc, params)?,
        body: read_body(alloc, body)?,
        env: ActId(number(env)?),
    })
}

/// A number, or none where there is a stroke.
fn optional(word: &str) -> Result<Option<u32>> {
    match word {
        "-" => Ok(None),
        _ => Ok(Some(number(word)?)),
    }
}

/// What stores are made of the records.
fn restored<C: Ledger>(alloc: Global, given: Records, copies: &mut Steps<C>) -> Result<String> {
    let Records {
        cookies,
        asks,
        acts,
        pages,
        wins,
        opened,
    } = given;
    let cookies = cookies_again(alloc, &CookieRecs::from_vec(cookies), copies)?;
    let asks = asks_again(alloc, &AskRecs::from_vec(asks), copies)?;
    let windows = WindowsRecs {
        acts: act_recs(alloc, acts)?,
        pages: page_recs(alloc, pages)?,
        wins: WinRecs::from_vec(wins),
        opened: WinIds::from_vec(opened),
    };
    let windows = windows_again(alloc, &windows, copies)?;
    Ok(format!(in alloc; "cookies {cookies}, requests {asks}, windows {windows}")?)
}

/// What stores are made of the records of a case's stores.
fn saved<C: Ledger>(alloc: Global, stores: &Stores, copies: &mut Steps<C>) -> Result<String> {
    let cookies = cookies_again(alloc, &stores.jar.records()?, copies)?;
    let asks = asks_again(alloc, &stores.requests.records()?, copies)?;
    let windows = windows_again(alloc, &recs_of(alloc, &stores.windows)?, copies)?;
    Ok(format!(in alloc; "cookies {cookies}, requests {asks}, windows {windows}")?)
}

/// Whether cookies are made of records, and have them again.
fn cookies_again<C: Ledger>(
    alloc: Global,
    recs: &CookieRecs,
    copies: &mut Steps<C>,
) -> Result<&'static str> {
    match Jar::restore(alloc, recs, copies)? {
        Some(jar) => {
            let again = jar.records()?;
            same(
                format!(in alloc; "{:?}", recs)?,
                format!(in alloc; "{:?}", again)?,
            )
        }
        None => Ok("none"),
    }
}

/// Whether requests are made of records, and have them again.
fn asks_again<C: Ledger>(
    alloc: Global,
    recs: &AskRecs,
    copies: &mut Steps<C>,
) -> Result<&'static str> {
    match Requests::restore(alloc, recs, copies)? {
        Some(requests) => {
            let again = requests.records()?;
            same(
                format!(in alloc; "{:?}", recs)?,
                format!(in alloc; "{:?}", again)?,
            )
        }
        None => Ok("none"),
    }
}

/// The records of windows, pages and activations.
#[derive(Debug, Drop)]
struct WindowsRecs {
    acts: ActRecs,
    pages: PageRecs,
    wins: WinRecs,
    opened: WinIds,
}

/// Whether windows are made of records, and have them again.
fn windows_again<C: Ledger>(
    alloc: Global,
    recs: &WindowsRecs,
    copies: &mut Steps<C>,
) -> Result<&'static str> {
    let made = Windows::restore(
        alloc,
        &recs.acts,
        &recs.pages,
        &recs.wins,
        &recs.opened,
        copies,
    )?;
    match made {
        Some(windows) => {
            let again = recs_of(alloc, &windows)?;
            same(
                format!(in alloc; "{:?}", recs)?,
                format!(in alloc; "{:?}", again)?,
            )
        }
        None => Ok("none"),
    }
}

/// Whether two texts are the same.
fn same(one: String, other: String) -> Result<&'static str> {
    if one.as_str() == other.as_str() {
        Ok("made")
    } else {
        Ok("made with other records")
    }
}

fn recs_of(alloc: Global, windows: &Windows) -> Result<WindowsRecs> {
    let counts = windows.counts();
    let mut pages = Vec::new(alloc);
    for i in 0..counts.pages {
        pages.push(windows.page_record(PageId(i))?)?;
    }
    let mut wins = Vec::new(alloc);
    for i in 0..counts.wins {
        wins.push(windows.win_record(WinId(i))?)?;
    }
    Ok(WindowsRecs {
        acts: windows.act_records()?,
        pages: PageRecs::from_vec(pages),
        wins: WinRecs::from_vec(wins),
        opened: windows.open_windows()?,
    })
}

fn act_recs(alloc: Global, acts: Vec<NotedAct>) -> Result<ActRecs> {
    let mut recs = Vec::new(alloc);
    for act in acts {
        let NotedAct { parent, vars } = act;
        let vars = Vars::from_vec(vars);
        recs.push(ActRec { parent, vars })?;
    }
    Ok(ActRecs::from_vec(recs))
}

fn page_recs(alloc: Global, pages: Vec<NotedPage>) -> Result<PageRecs> {
    let mut recs = Vec::new(alloc);
    for page in pages {
        let NotedPage {
            url,
            win,
            root,
            act,
            next,
            queue,
        } = page;
        recs.push(PageRec {
            url,
            win,
            root,
            act,
            next,
            queue: Entries::from_vec(queue),
        })?;
    }
    Ok(PageRecs::from_vec(recs))
}
