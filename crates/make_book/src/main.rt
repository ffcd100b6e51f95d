// Makes a material book of a job's surfaces, and writes it to standard output (docs/RAYS.md). The job is read from standard
// input or from the file that the argument names. Where a surface is wrong, or the book would be too long, no byte is written,
// and standard error says why.
#![tactic(auto)]

use jobs::answering;
use surfaces::Surfaces;

mod surfaces;

fn main(rt: HostRuntime) {
    let mut surfaces = Surfaces::new(&rt);
    answering::run(&rt, "make_book", rt.stdin(), &mut surfaces);
}
