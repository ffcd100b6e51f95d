// Answers a job, which it reads from standard input or from the file that its argument names: one line
// for each command (docs/RAYS.md). It holds a part of the job at a time, however long the job is.
#![tactic(auto)]

use figures::Figures;
use jobs::answering;
use text::output::Output;

mod commands;
mod figures;
mod list;
mod replies;
mod sizes;

fn main(rt: HostRuntime) {
    let mut bytes = [0u8; sizes::OUTPUT];
    let mut figures = Figures::new(&rt, Output::new(&mut bytes));
    answering::run(&rt, "rays", rt.stdin(), &mut figures);
}
