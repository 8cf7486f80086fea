//! A window as a cell of a list.
ghost use Rattle.std.specs.Prelude.{◌≡◌, IfOk};
ghost use Rattle.std.specs.Option.{option_copied, ForSome};
ghost use Rattle.std.specs.Str.{IsUtf8};
ghost use Rattle.ff_machine.specs.Nodes.{is_name};
ghost use Rattle.ff_records.specs.Records.{win_rec};

use ff_contract::Steps;
use ff_cow::Cell;
use ff_name::{NoMemory, Text};
use ff_records::WinRec;
use ff_value::{PageId, WinId};
use std::marker::Model;
use std::sync::ledger::Ledger;

/// A window, open or closed: its name and its opener, where it has them, and its page.
#[derive(Drop)]
pub(crate) struct WinCell {
    name: Option<Text>,
    opener: Option<WinId>,
    page: PageId,
}

impl Model for WinCell {
    ghost use Rattle.ff_machine.specs.Codes.{coded_window};
    ghost use Rattle.ff_machine.specs.Windows.{Window};

    ghost Value = { Window };

    ghost coded = { coded_window };

    ghost view = { λ w. record { name = w.name; opener = w.opener; page = w.page } };
}

impl WinCell {
    /// The window of these; it shares the name.
    pub(crate) fn of(
        name: Option<&Text>,
        opener: Option<WinId>,
        page: PageId,
    ) -> Result<WinCell, NoMemory>
        ensures value { IfOk result (λ w. w ≡ record
            { name = option_copied name.entry; opener = opener; page = page }) }
        ensures named { ForSome (option_copied name.entry) IsUtf8 }
    {
        let name = match name {
            Some(text) => {
                let _known = text.as_bytes();
                Some(text.copy()?)
            }
            None => None,
        };
        Ok(WinCell { name, opener, page })
    }

    /// The window as a record, which shares its name.
    pub(crate) fn record(&self) -> Result<WinRec, NoMemory>
        ensures { IfOk result (λ rec. rec ≡ win_rec self.now) }
    {
        let name = match &self.name {
            Some(text) => Some(text.copy()?),
            None => None,
        };
        Ok(WinRec {
            page: self.page,
            opener: self.opener,
            name,
        })
    }

    pub(crate) fn opener(&self) -> Option<WinId>
        ensures { result ≡ self.now.opener }
    {
        self.opener
    }

    pub(crate) fn page(&self) -> PageId
        ensures { result ≡ self.now.page }
    {
        self.page
    }

    /// Whether the window has this name.
    pub(crate) fn is_named(&self, name: &Text) -> bool
        ensures { result ≡ is_name name.now self.now.name }
    {
        match &self.name {
            Some(own) => own.as_bytes() == name.as_bytes(),
            None => false,
        }
    }

    /// The window shows another page.
    pub(crate) fn show(&mut self, page: PageId)
        ensures { self.new ≡ record self.old { page = page } }
    {
        self.page = page;
    }
}

impl<C: Ledger> Cell<C> for WinCell {
    fn copy(&self, copies: &mut Steps<C>) -> Result<WinCell, NoMemory> {
        copies.tick();
        let name = match &self.name {
            Some(text) => Some(text.copy()?),
            None => None,
        };
        Ok(WinCell {
            name,
            opener: self.opener,
            page: self.page,
        })
    }
}
