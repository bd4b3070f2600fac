// Payments as 40 bytes, and lists of them.
ghost use Rattle.std.specs.Prelude.{◌≡◌, ◌+◌, ◌*◌, ◌≤◌, length, take, drop};
ghost use Rattle.std.specs.List.{flat_map};
ghost use Rattle.sheet_bytes.specs.Appends.{Appended, Room, Put};
ghost use Rattle.sheet_bytes.specs.Bytes.{payment_bytes, list_bytes, payment_of, payments_of, payment_read};

use crate::numbers::{holds, number_at, put_bytes, put_number};
use sheet::Payment;
use std::alloc::AllocError;

// Appends the bytes of a payment, for which there is room.
fn put_payment(out: &mut Vec<u8>, payment: &Payment)
    requires { Room out.old 40 }
    ensures { Put out.old out.new (payment_bytes payment.now) 40 }
{
    put_bytes(out, &payment.lock);
    put_number(out, payment.amount);
    put_number(out, payment.end);
}

// Appends payments one after another.
fn put_payments(out: &mut Vec<u8>, list: &[Payment])
    requires { Room out.old (40 * length list.now) }
    ensures { Put out.old out.new (flat_map payment_bytes list.now) (40 * length list.now) }
{
    for p in list {
        put_payment(out, p);
    }
}

// Appends how many payments there are, and then these.
pub(crate) fn put_list(out: &mut Vec<u8>, list: &[Payment])
    requires few { length list.now ≤ 32 }
    requires room { Room out.old (1 + 40 * length list.now) }
    ensures { Put out.old out.new (list_bytes list.now) (1 + 40 * length list.now) }
{
    put_bytes(out, &[list.len() as u8]);
    put_payments(out, list);
}

// Appends the bytes of a payment.
pub fn push_payment(out: &mut Vec<u8>, payment: &Payment) -> Result<(), AllocError>
    ensures { Appended result out.old.items (payment_bytes payment.now) out.new.items }
{
    out.reserve(40)?;
    put_payment(out, payment);
    Ok(())
}

// The 32 bytes at a place where they are known to be.
fn lock_at(bytes: &[u8], at: usize) -> [u8; 32]
    requires { at + 32 ≤ length bytes.now }
    ensures { result ≡ take 32 (drop at bytes.now) }
{
    let mut lock = [0; 32];
    lock.copy_from_slice(&bytes[at..at + 32]);
    lock
}

// The payment at a place where its bytes are known to be.
fn payment_at(bytes: &[u8], at: usize) -> Payment
    requires { at + 40 ≤ length bytes.now }
    ensures { result ≡ payment_of (drop at bytes.now) }
{
    Payment {
        lock: lock_at(bytes, at),
        amount: number_at(bytes, at + 32),
        end: number_at(bytes, at + 36),
    }
}

// Reads the payments from a place on, where their bytes are known to be, into the front of `list`. An array that is given
// back would be filled and copied once more.
pub(crate) fn payments_at(bytes: &[u8], at: usize, count: usize, list: &mut [Payment; 32])
    requires few { count ≤ 32 }
    requires within { at + 40 * count ≤ length bytes.now }
    ensures { take count list.new ≡ payments_of count (drop at bytes.now) }
{
    let (forties, _) = bytes[at..at + 40 * count].as_chunks::<40>();
    for (i, forty) in forties.iter().enumerate() {
        list[i] = payment_at(forty, 0);
    }
}

// The payment at a place; None where its 40 bytes aren't there. With read_number it shares `holds`: one `if` is left.
pub fn read_payment(bytes: &[u8], at: usize) -> Option<Payment>
    ensures { result ≡ payment_read bytes.now at }
{
    if !holds(bytes, at, 40) {
        return None;
    }
    Some(payment_at(bytes, at))
}
