// Makes calls of the library from text: one call a line on standard input, one answer a line on
// standard output. docs/PROTOCOL.md tells the lines.
#![tactic(auto)]

use lists::Lists;
use std::io;

fn main(rt: HostRuntime) -> io::Result<()> {
    let mut lists = Lists::new();
    words::answer_lines(rt.alloc(), rt.stdin(), rt.stdout(), |line, out| {
        protocol::answer(line, &mut lists, out)
    })
}
