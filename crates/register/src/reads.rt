// What a page shows.
ghost use Rattle.std.specs.Prelude.{◌≡◌};
ghost use Rattle.register.specs.Pages.{page_of, phase_of, keys_of};

use crate::types::{KeyAt, Page, Phase};

impl Page {
    pub fn phase(&self) -> Phase
        ensures { phase_of result ≡ (page_of self.now).phase }
    {
        self.phase
    }

    // The keys that were shown for the account, each with its tick, in the order in which they came.
    pub fn keys(&self) -> &[KeyAt]
        ensures { keys_of result.now ≡ (page_of self.now).keys }
    {
        &self.keys
    }
}
