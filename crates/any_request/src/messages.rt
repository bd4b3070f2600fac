// The bytes of a message.
ghost use Rattle.std.specs.Prelude.{◌≡◌, ◌∷◌};
ghost use Rattle.any_request.specs.Messages.{proposed_read, signature_read, key_read, message_read, pair_read, on_told, sheet_of};

use judgement::Signature;
use refusal::Refusal;
use rules::Message;
use sheet::Sheet;
use sheet_bytes::read_sheet;

// The first byte of each kind of message.
const PROPOSED: u8 = 1;

const SIGNED: u8 = 2;

const KEY: u8 = 3;

// A sheet proposed as next, past its first byte.
fn read_proposed(rest: &[u8]) -> Result<Sheet, Refusal>
    ensures { sheet_of result ≡ proposed_read (1 ∷ rest.now) }
{
    let got = read_sheet(rest)?;
    if got.used != rest.len() {
        return Err(Refusal::Unreadable);
    }
    Ok(got.sheet)
}

// The sender's signature, past its first byte.
fn read_signature(rest: &[u8]) -> Result<Signature, Refusal>
    ensures { result ≡ signature_read (2 ∷ rest.now) }
{
    let [account, a, b, c, d] = *rest else {
        return Err(Refusal::Unreadable);
    };
    let number = u32::from_be_bytes([a, b, c, d]);
    Ok(Signature { account, number })
}

// A key, past its first byte.
fn read_key(rest: &[u8]) -> Result<[u8; 32], Refusal>
    ensures { result ≡ key_read (3 ∷ rest.now) }
{
    match rest.first_chunk() {
        Some(key) if rest.len() == 32 => Ok(*key),
        _ => Err(Refusal::Unreadable),
    }
}

// One message.
pub(crate) fn read_message(bytes: &[u8]) -> Result<Message, Refusal>
    ensures { on_told result ≡ message_read bytes.now }
{
    match bytes {
        [PROPOSED, sheet @ ..] => Ok(Message::Proposed(read_proposed(sheet)?)),
        [SIGNED, signature @ ..] => Ok(Message::Signed(read_signature(signature)?)),
        [KEY, key @ ..] => Ok(Message::Key(read_key(key)?)),
        _ => Err(Refusal::Unreadable),
    }
}

// A sheet and the signature under it.
pub(crate) fn read_pair(sheet: &[u8], signature: &[u8]) -> Result<Message, Refusal>
    ensures { on_told result ≡ pair_read sheet.now signature.now }
{
    match (sheet, signature) {
        ([PROPOSED, sheet @ ..], [SIGNED, signature @ ..]) => {
            Ok(Message::ProposedSigned(read_proposed(sheet)?, read_signature(signature)?))
        }
        _ => Err(Refusal::Unreadable),
    }
}
