// A node at work in its folder: each line is judged, and answered.
use crate::acts::push_answer;
use crate::start::opened;
use crate::store::Store;
use anyhow::anyhow;
use node_state::Node;
use outcome::Fault;
use plan::Plan;
use refusal::Refusal;
use std::io::{BufRead, BufReader, Write};

// The node, and its open file.
#[derive(Drop)]
pub struct OpenNode {
    node: Node,
    store: Store,
}

// What a program makes of a line: what the rules say, and what is said of the line on standard error if it isn't turned away.
#[derive(Drop)]
pub struct Judged {
    pub answer: Result<Result<(), Refusal>, Fault>,
    pub said: Option<String>,
}

// What stops the program, in words: Fault is another crate's type, so that no Display can stand here.
fn in_words(fault: Fault) -> anyhow::Error {
    match fault {
        Fault::Memory => anyhow!("out of memory"),
        Fault::Failed => anyhow!("an act failed"),
    }
}

impl OpenNode {
    // The node from its folder, ready for lines.
    pub fn start(rt: &HostRuntime, folder: &str) -> anyhow::Result<OpenNode> {
        let (node, store) = opened(rt, folder)?;
        Ok(OpenNode { node, store })
    }

    // The acts in their order, then the answer, written at once.
    fn answer(&mut self, rt: &HostRuntime, plan: &Plan, judged: Judged) -> anyhow::Result<()> {
        let heap = rt.alloc();
        let Judged { answer, said } = judged;
        let answer = answer.map_err(in_words)?;
        let mut out = Vec::new(heap);
        self.store.carry_out(heap, plan.acts.as_slice(), &mut out)?;
        push_answer(&mut out, answer)?;
        rt.stdout().write_all(out.as_slice())?;
        if let (Ok(()), Some(words)) = (answer, said) {
            let _ = eprintln!(rt; "node: {words}");
        }
        Ok(())
    }

    // Answers the lines of standard input to its end. What is to be done for a line stands in the plan that `judge` fills.
    pub fn answer_lines<F: FnMut(&mut Node, &mut Plan, &[u8]) -> anyhow::Result<Judged>>(
        &mut self,
        rt: &HostRuntime,
        mut judge: F,
    ) -> anyhow::Result<()>
        requires { F.IsAlwaysCallable judge }
    {
        let heap = rt.alloc();
        let mut input = BufReader::new(heap, rt.stdin())?;
        let mut line = Vec::new(heap);
        // A line is told from one that is cut short by its newline, which `split` would drop. A loop that waits on input has to
        // be counted, since each function ends.
        for _ in 0..u64::MAX {
            line.clear();
            if input.read_until(b'\n', &mut line)? == 0 {
                break;
            }
            let mut plan = Plan::new(heap);
            let judged = judge(&mut self.node, &mut plan, line.as_slice())?;
            self.answer(rt, &plan, judged)?;
        }
        Ok(())
    }
}
