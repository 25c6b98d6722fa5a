// Takes calls from standard input, one a line, and prints each answer: docs/REPLAY.md has the form, and how a call is added.
#![tactic(auto)]

mod associate;
mod buffers;
mod calls;
mod digits;
mod host;
mod lines;
mod machine;
mod print;
mod readers;
mod words;
mod writers;

fn main(rt: HostRuntime) {
    let mut lines = lines::Lines::new(rt.stdin());
    let mut line = lines::Line::new();
    let mut host = host::Host::new();
    for _ in 0..u64::MAX {
        if !lines.next(&mut line) {
            break;
        }
        calls::answer(&rt, line.bytes(), &mut host);
    }
}
