// How a page is made, and how it changes: a sheet comes in, a key comes in, time goes on.
ghost use Rattle.std.specs.Prelude.{◌≡◌, is_ok, if◌then◌else◌};
ghost use Rattle.sheet.specs.Contents.{content_of};
ghost use Rattle.register.specs.Pages.{page_of};
ghost use Rattle.register.specs.Register.{blank, sheet_shown, key_shown, turned_to};

use crate::keys::{add, is_known};
use crate::types::{KeyAt, Page, Phase};
use sheet::Sheet;
use std::alloc::{AllocError, Global};

impl Page {
    // Nothing was shown for the account yet.
    pub fn new(heap: Global) -> Page
        ensures { page_of result ≡ blank }
    {
        Page {
            phase: Phase::Quiet,
            keys: Vec::new(heap),
        }
    }

    // A sheet with both signatures comes in: it opens a dispute, or takes the place of a lower one while that is open.
    pub fn show_sheet(&mut self, window: u32, tick: u32, sheet: Sheet)
        ensures { page_of self.new ≡ sheet_shown window tick (content_of sheet) (page_of self.old) }
    {
        match self.phase {
            Phase::Quiet => {
                let until = u64::from(tick) + u64::from(window);
                self.phase = Phase::Disputed { sheet, until };
            }
            Phase::Disputed {
                sheet: shown,
                until,
            } => {
                if u64::from(tick) < until && shown.number < sheet.number {
                    self.phase = Phase::Disputed { sheet, until };
                }
            }
            Phase::Ended { .. } => {}
        }
    }

    // A key comes in. It is kept with the tick of its first showing; nothing changes where memory runs out.
    pub fn show_key(&mut self, tick: u32, key: [u8; 32]) -> Result<(), AllocError>
        ensures { page_of self.new ≡ (if is_ok result then key_shown tick key (page_of self.old) else page_of self.old) }
    {
        if is_known(&self.keys, &key) {
            return Ok(());
        }
        add(&mut self.keys, KeyAt { key, tick })
    }

    // At this tick a dispute whose time is over has ended.
    pub fn turn_to(&mut self, tick: u32)
        ensures { page_of self.new ≡ turned_to tick (page_of self.old) }
    {
        if let Phase::Disputed { sheet, until } = self.phase {
            if until <= u64::from(tick) {
                self.phase = Phase::Ended { sheet, until };
            }
        }
    }
}
