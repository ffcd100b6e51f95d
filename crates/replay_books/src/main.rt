// Replays books: reads, writes and refuses what an index says, from files. Says how many books were read, how many of them
// were written again, how many lists of surfaces were written and how many of all these differ from what they must give,
// and before that the line of the first that does.
#![tactic(auto)]

use command::Command;
use replay::Replay;
use std::{fs, io};

mod command;
mod replay;
mod surfaces;

fn run(rt: &HostRuntime, index: &str) -> io::Result<()> {
    let mut replay = Replay::new(rt);
    for line in index.lines() {
        replay.step(Command::of(line))?;
    }
    println!(rt; "{replay}")
}

// Where the index can't be read, standard error says so, which is no failure of the program.
fn main(rt: HostRuntime) -> io::Result<()> {
    match fs::read_to_string(&rt, "index") {
        Ok(index) => run(&rt, &index),
        Err(why) => eprintln!(rt; "index: {why}"),
    }
}
