//! What several operators read off the stores.
ghost use Rattle.std.specs.Prelude.{◌≡◌, ◌<◌, length, IfOk, IsTrue};
ghost use Rattle.std.specs.Str.{IsUtf8};
ghost use Rattle.ff_name.specs.Address.{printed};
ghost use Rattle.ff_machine.specs.Operators as operators;
ghost use Rattle.ff_machine.specs.Windows as windows;

use ff_name::{Domain, NoMemory, Url};
use ff_stores::Stores;
use ff_value::{PageId, WinId};
use std::alloc::Global;

/// A live page was made.
pub(crate) fn made_live(stores: &Stores, page: PageId)
    requires { IsTrue (windows.is_live stores.now.windows page) }
    ensures { page.0 < length stores.now.windows.pages }
{
    let _known = stores.windows();
}

/// Whether a window is open.
pub(crate) fn is_open(stores: &Stores, window: WinId) -> bool
    ensures { result ≡ windows.is_open stores.now.windows window }
{
    stores.windows().position(window).is_some()
}

/// The window of a page, which was made.
pub(crate) fn own_window(stores: &Stores, page: PageId) -> WinId
    requires { page.0 < length stores.now.windows.pages }
    ensures value { result ≡ operators.self_window stores.now page }
    ensures lives { result.0 < length stores.now.windows.windows }
{
    stores.windows().win_of(page)
}

/// The page that a window shows, which was made.
pub(crate) fn shown_page(stores: &Stores, window: WinId) -> PageId
    requires { window.0 < length stores.now.windows.windows }
    ensures value { result ≡ (windows.window_at stores.now.windows window).page }
    ensures lives { result.0 < length stores.now.windows.pages }
{
    stores.windows().page(window)
}

/// The address of the page that a window shows, as text.
pub(crate) fn shown_address(
    alloc: Global,
    stores: &Stores,
    window: WinId,
) -> Result<Vec<u8>, NoMemory>
    requires { window.0 < length stores.now.windows.windows }
    ensures value { IfOk result (λ bytes. bytes.items
        ≡ printed (windows.page_at stores.now.windows
        (windows.window_at stores.now.windows window).page).url) }
    ensures utf8 { IfOk result (λ bytes. IsUtf8 bytes.items) }
{
    let page = shown_page(stores, window);
    let mut bytes = Vec::new(alloc);
    stores.windows().url_of(page).print(&mut bytes)?;
    Ok(bytes)
}

/// The domain of a page, or `None` where the page is blank.
pub(crate) fn page_domain(stores: &Stores, page: PageId) -> Result<Option<Domain>, NoMemory>
    requires { page.0 < length stores.now.windows.pages }
    ensures { IfOk result (λ found. found ≡ operators.page_domain stores.now page) }
{
    match stores.windows().url_of(page) {
        Url::Blank => Ok(None),
        Url::At(domain, _uri) => Ok(Some(domain.copy()?)),
    }
}
