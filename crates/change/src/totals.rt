// The money of payments and of a sheet.
ghost use Rattle.std.specs.Prelude.{◌≡◌, ◌*◌, ◌≤◌, length};
ghost use Rattle.sheet.specs.Contents.{content_of};
ghost use Rattle.change.specs.Totals.{amounts, total_of};

use sheet::{Payment, Sheet};

// What the payments of a list amount to.
fn amounts(list: &[Payment]) -> u64
    requires { length list.now ≤ 32 }
    ensures value { result ≡ amounts list.now }
    ensures bound { result ≤ 32 * 4294967295 }
{
    // a loop: for map and sum, what proves the bound was not found
    let mut sum = 0;
    for p in list {
        sum += u64::from(p.amount);
    }
    sum
}

// What the ins of a sheet hold together.
pub fn ins_total(sheet: &Sheet) -> u64
    ensures value { result ≡ amounts (content_of sheet.now).ins }
    ensures bound { result ≤ 32 * 4294967295 }
{
    amounts(sheet.ins())
}

// What the outs of a sheet hold together.
pub fn outs_total(sheet: &Sheet) -> u64
    ensures value { result ≡ amounts (content_of sheet.now).outs }
    ensures bound { result ≤ 32 * 4294967295 }
{
    amounts(sheet.outs())
}

// All the money of an account: both sides' own, and what the payments hold.
pub fn total(sheet: &Sheet) -> u64
    ensures { result ≡ total_of (content_of sheet.now) }
{
    u64::from(sheet.own) + u64::from(sheet.theirs) + ins_total(sheet) + outs_total(sheet)
}
