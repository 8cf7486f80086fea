//! The windows that scripts run in.
ghost use Rattle.std.specs.Prelude.{◌≡◌};
ghost use Rattle.ff_name.specs.Address.{IsWellSpelled};
ghost use Rattle.ff_machine.specs.Windows as w;

use anyhow::{Result, bail};
use ff_contract::Steps;
use ff_name::Url;
use ff_stores::Stores;
use ff_value::{Docs, Out, PageId, WinId};
use std::alloc::Global;
use std::sync::ledger::Ledger;

/// Opens a window that shows an empty page of an address.
pub fn open<C: Ledger>(
    alloc: Global,
    stores: &mut Stores,
    address: &str,
    outs: &mut Vec<Out>,
    copies: &mut Steps<C>,
) -> Result<()> {
    let url = Url::read(alloc, address.as_bytes())?;
    let Some(n) = stores.open_window(None, None, outs, copies)? else {
        bail!("no room for a window");
    };
    if !matches!(&url, Url::Blank) {
        load(alloc, stores, n, &url, outs, copies)?;
    }
    Ok(())
}

/// Shows an empty page in a window.
fn load<C: Ledger>(
    alloc: Global,
    stores: &mut Stores,
    n: WinId,
    url: &Url,
    outs: &mut Vec<Out>,
    copies: &mut Steps<C>,
) -> Result<()>
    requires { IsWellSpelled url.now }
{
    let docs = Docs::from_vec(alloc, Vec::new(alloc))?;
    if !has_open(stores, n) {
        bail!("no open window");
    }
    if !stores.load(n, url, &docs, outs, copies)? {
        bail!("no room for a page");
    }
    Ok(())
}

fn has_open(stores: &Stores, n: WinId) -> bool
    ensures { result ≡ w.is_open stores.now.windows n }
{
    stores.windows().is_open(n)
}

/// The page of the open window at a place.
pub fn page_at(stores: &Stores, place: u32) -> Result<PageId> {
    let windows = stores.windows();
    let Some(n) = windows.at(place) else {
        bail!("no window at {place}");
    };
    if n.0 >= windows.next_win().0 {
        bail!("no window at {place}");
    }
    Ok(windows.page(n))
}
