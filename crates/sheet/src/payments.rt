// Lists of payments: finding one by its lock, putting one in front, taking one off.
ghost use Rattle.std.specs.Prelude.{◌≡◌, ◌≤◌, ◌∷◌, cond, length, take, position, IfSome, Some, None, nat_le, nat_lt};
ghost use Rattle.std.specs.Option.{option_map};
ghost use Rattle.sheet.specs.Contents.{firsts, is_for, found, without};

use crate::types::Payment;

// The payment with the lock.
pub fn find(list: &[Payment], lock: &[u8; 32]) -> Option<Payment>
    ensures { result ≡ found lock.now list.now }
{
    list.iter().copied().find(|p| p.lock == *lock)
}

// Where the first payment with the lock stands.
fn place(list: &[Payment], lock: &[u8; 32]) -> Option<usize>
    ensures { result ≡ position (is_for lock.now) list.now }
{
    list.iter().position(|p| p.lock == *lock)
}

// A list as an array, whatever stands past its end; None where there are more than 32.
pub(crate) fn array_of(list: &[Payment]) -> Option<[Payment; 32]>
    ensures { option_map (take (length list.now)) result ≡ cond (nat_le (length list.now) 32) (Some list.now) None }
{
    if list.len() > 32 {
        return None;
    }
    let mut out = [Payment::default(); 32];
    out[..list.len()].copy_from_slice(list);
    Some(out)
}

// The first `count` payments with one more before them, and how many these are; None where there are 32. Array and count are
// those of a sheet, a rule of the project.
pub(crate) fn added(list: [Payment; 32], count: usize, p: Payment) -> Option<([Payment; 32], usize)>
    ensures value { option_map firsts result ≡ cond (nat_lt count 32) (Some (p ∷ take count list)) None }
    ensures few { IfSome result (λ r. r.1 ≤ 32) }
{
    if count >= 32 {
        return None;
    }
    let mut out = list;
    out[1..count + 1].copy_from_slice(&list[..count]);
    out[0] = p;
    Some((out, count + 1))
}

// The first `count` payments without the one that has the lock, if there is one, and how many these are.
pub(crate) fn removed(list: [Payment; 32], count: usize, lock: &[u8; 32]) -> ([Payment; 32], usize)
    requires { count ≤ 32 }
    ensures value { firsts result ≡ without lock.now (take count list) }
    ensures few { result.1 ≤ 32 }
{
    let Some(at) = place(&list[..count], lock) else {
        return (list, count);
    };
    let mut out = list;
    out[at..count - 1].copy_from_slice(&list[at + 1..count]);
    (out, count - 1)
}
