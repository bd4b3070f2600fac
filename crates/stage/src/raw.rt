// Messages as bytes, for what no honest program would send.
use crate::types::{Answer, Trouble};
use crate::world::World;
use refusal::Refusal;
use request_told::{Request, read_request};
use rules::Message;
use script::Command;

impl World {
    // The message that words of hexadecimal digits write, read as the node program reads its lines.
    fn message_in(&self, raw: &[u8]) -> Result<Result<Message, Refusal>, Trouble> {
        let mut line = Vec::new(self.scene.heap);
        line.extend_from_slice(b"0 ")?;
        line.extend_from_slice(raw)?;
        line.push(b'\n')?;
        let request = read_request(self.scene.heap, line.as_slice())?;
        Ok(request.and_then(|request| match request {
            Request::Message(_, message) => Ok(message),
            _ => Err(Refusal::Unreadable),
        }))
    }

    pub(crate) fn send_raw(
        &mut self,
        from: usize,
        to: usize,
        raw: &[u8],
        command: Command,
    ) -> Result<(), Trouble> {
        match self.message_in(raw)? {
            Ok(message) => self.told_by(from, to, message, command),
            Err(refusal) => self.played(command, Answer::Refused(refusal)),
        }
    }
}
