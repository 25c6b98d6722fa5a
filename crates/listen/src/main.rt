// The listen program: gives transport indication, feeds standard input to its end in pieces, then gives closed. Each action is a line: its name, the state after
// it and the bytes sent. A write that fails is passed over.
#![tactic(auto)]

mod window;

ghost use Rattle.std.specs.Prelude.{◌≡◌};
ghost use Rattle.association.specs.Events.{Local.plain};
ghost use Rattle.listen.specs.Listen.{lent, given, Listened};

use association::{Assoc, Told};
use std::fmt;
use std::io::Read;
use window::Window;

// An action by its number, printed as Tables 9-6 to 9-9 name it: its family, and its number behind the last action of the family before.
#[derive(Clone, Copy)]
struct Action(u8);

impl fmt::Display for Action {
    fn fmt<W: fmt::Write>(&self, f: &mut fmt::Formatter<W>) -> fmt::Result {
        let action = self.0;
        match action {
            0..=table::AE_8 => write!(f, "AE-{action}"),
            ..=table::DT_2 => write!(f, "DT-{}", action - table::AE_8),
            ..=table::AR_10 => write!(f, "AR-{}", action - table::DT_2),
            _ => write!(f, "AA-{}", action - table::AR_10),
        }
    }
}

// The line of a call's action. A call without one, a refused one among them, prints nothing.
fn print_line(rt: &impl Print, told: Told, state: u8) {
    if told.action != table::NO_ACTION {
        let _ = println!(rt; "{} {} {}", Action(told.action), state, told.sent);
    }
}

// What is lent to each call.
#[derive(Drop)]
struct Host {
    assoc: Assoc,
    gather: [u8; numbers::BUFFER],
    out: [u8; numbers::BUFFER],
}

impl Host {
    ghost use Rattle.listen.specs.Host.{lent_by};

    // Gives a local event.
    fn give(&mut self, rt: &impl Print, number: u8)
        ensures { lent_by self.new ≡ given (lent_by self.old) (plain number) }
    {
        let told = lent::event_lent(&mut self.assoc, number, &self.gather, &mut self.out);
        print_line(rt, told, self.assoc.state);
    }

    // Offers the input, piece by piece, to its end, where a call is offered no bytes.
    fn listen(&mut self, rt: &impl Print, input: &mut impl Read)
        ensures { Listened (lent_by self.old) (lent_by self.new) }
    {
        let mut window = Window::new();
        for _call in 0..u64::MAX {
            let ended = window.fill(input);
            let piece = window.rest();
            let told = lent::receive_lent(&mut self.assoc, &mut self.gather, piece, &mut self.out);
            print_line(rt, told, self.assoc.state);
            if ended {
                return;
            }
            window.consume(told.used);
        }
    }
}

fn main(rt: HostRuntime) {
    let mut input = rt.stdin();
    let mut host = Host {
        assoc: association::fresh(),
        gather: [0; numbers::BUFFER],
        out: [0; numbers::BUFFER],
    };
    host.give(&rt, table::TRANSPORT_INDICATION);
    host.listen(&rt, &mut input);
    host.give(&rt, table::TRANSPORT_CLOSED);
}
