// Equality of sheets, by what they mean.
ghost use Rattle.std.specs.Prelude.{◌≡◌, Decides};
ghost use Rattle.std.specs.Ordering.{on};
ghost use Rattle.sheet.specs.Contents.{content_of, content_eq};
ghost use Rattle.sheet.specs.Laws.{sheet_eq_laws};

use crate::types::Sheet;

// Two sheets are equal if they mean the same, whatever stands past their counts, so that this can't be derived.
impl PartialEq for Sheet {
    ghost eq = { on content_of content_eq };

    ghost laws = { sheet_eq_laws };

    fn eq(&self, other: &Sheet) -> bool
        ensures value { result ≡ content_eq (content_of self.now) (content_of other.now) }
        ensures same { Decides result (content_of self.now ≡ content_of other.now) }
    {
        self.account == other.account
            && self.number == other.number
            && self.own == other.own
            && self.theirs == other.theirs
            && self.ins() == other.ins()
            && self.outs() == other.outs()
    }
}
