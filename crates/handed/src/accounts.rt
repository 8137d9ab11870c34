// The account of channel 0 where its queue and its lost count are full, out of their range, or the
// account's own numbers come to their end, which no script reaches.
use crate::{ALL, EVERY, board_with, event};
use account::{Account, Audit};
use calls::Event;
use counter::Channel;

// A running channel that captures when its index rises, with so many entries and lost captures.
fn capturing(held: u32, lost: u32) -> Channel {
    Channel {
        running: true,
        mask: 16,
        held,
        lost,
        ..counter::reset()
    }
}

// The five numbers after an event, with an account of channel 0 before it.
fn after(rt: &impl Print, name: &str, c: Channel, before: Account, e: Event) {
    let a = Audit {
        board: board_with(c, control::reset()),
        accounts: [before; board::CHANNELS],
    };
    let next = a.send(e);
    let n = account::balance_of(next.accounts[0], next.board.channels[0]);
    let _ = println!(rt;
        "R8, {name}: {} {} {} {} {}",
        n.made, n.handed, n.held, n.reported, n.unreported
    );
}

// The same account for each number.
fn so_many(n: u64) -> Account {
    Account {
        made: n,
        handed: n,
        reported: n,
    }
}

// The lost count at its end, with events that capture and that read.
fn at_the_end(rt: &impl Print, soft: Event, rising: Event, read: Event) {
    let none = so_many(0);
    let last = capturing(16, ALL);
    after(
        rt,
        "one below the end, soft",
        capturing(16, ALL - 1),
        none,
        soft,
    );
    after(rt, "at the end, soft", last, none, soft);
    after(rt, "at the end, a step", last, none, rising);
    after(rt, "at the end, a read", last, none, read);
}

// A length of the queue that is out of its range, and members that are not channel 0.
fn out_of_range(rt: &impl Print, soft: Event, rising: Event, read: Event) {
    let none = so_many(0);
    let long = capturing(17, 0);
    let three = capturing(3, 0);
    after(rt, "17 held, soft", long, none, soft);
    after(rt, "17 held, a step", long, none, rising);
    after(rt, "17 held, a read", long, none, read);
    after(rt, "another channel, soft", three, none, event(8, 1, 0));
    after(rt, "no such channel, soft", three, none, event(8, 6, 0));
}

// The account's numbers at their end, and close to it.
fn full_accounts(rt: &impl Print, soft: Event, rising: Event, read: Event) {
    let full = so_many(EVERY);
    let two = capturing(2, 0);
    let lost = capturing(2, 3);
    after(rt, "accounts at their end, soft", two, full, soft);
    after(rt, "accounts at their end, a step", two, full, rising);
    after(rt, "accounts at their end, a read", two, full, read);
    after(
        rt,
        "accounts 3 below it, 3 lost",
        lost,
        so_many(EVERY - 3),
        read,
    );
    after(
        rt,
        "accounts 2 below it, 3 lost",
        lost,
        so_many(EVERY - 2),
        read,
    );
}

pub fn show_accounts(rt: &impl Print) {
    let soft = event(8, 0, 0);
    let rising = event(0, 0, 4);
    let read = event(11, 0, 0);
    at_the_end(rt, soft, rising, read);
    out_of_range(rt, soft, rising, read);
    full_accounts(rt, soft, rising, read);
}
