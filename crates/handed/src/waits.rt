// Pin 5 with a filter and a wait, in a step or in a write of its filter: the ends of the wait, and a
// wait above the filter, which no script reaches.
use crate::event;
use crate::show::{Lines, show_answer};
use calls::Event;
use filters::Filters;

// Bit 5 of a word of the pins.
const PIN_5: u64 = 32;

// The planes in which pin 5 has this number.
fn number(n: u16) -> [u64; filters::PLANES] {
    let mut planes = [0; filters::PLANES];
    for (j, plane) in planes.iter_mut().enumerate() {
        if n >> j & 1 == 1 {
            *plane = PIN_5;
        }
    }
    planes
}

// What an event makes of the pins, where pin 5 has this filter and this wait.
fn of_pin_5(rt: &impl Print, name: &str, filter: u16, wait: u16, e: Event) {
    let mut b = board::reset();
    b.pins.filters = Filters {
        filter: number(filter),
        wait: number(wait),
    };
    let o = board::apply(b, e);
    show_answer(rt, name, o.answer);
    let _ = print!(rt; "{}", Lines(&o.board.pins));
}

pub fn show_waits(rt: &impl Print) {
    let low = event(0, 0, 0);
    let high = Event {
        w: PIN_5,
        ..event(0, 0, 0)
    };
    of_pin_5(rt, "R6, filter 2, wait 1, up", 2, 1, high);
    of_pin_5(rt, "R6, filter 2, wait 2, up", 2, 2, high);
    of_pin_5(rt, "R6, filter 2, wait 2, down", 2, 2, low);
    of_pin_5(rt, "R6, filter 65535, wait 65534, up", 65535, 65534, high);
    of_pin_5(rt, "R6, filter 65535, wait 65535, up", 65535, 65535, high);
    of_pin_5(rt, "R6, a write of 2", 2, 2, event(30, 5, 2));
    of_pin_5(rt, "R6, a write for pin 4", 2, 2, event(30, 4, 2));
    of_pin_5(rt, "R7, filter 2, wait 9, up", 2, 9, high);
    of_pin_5(rt, "R7, filter 2, wait 9, down", 2, 9, low);
    of_pin_5(
        rt,
        "R7, filter 2, wait 9, a count read",
        2,
        9,
        event(10, 0, 0),
    );
    of_pin_5(rt, "R7, filter 0, wait 9, up", 0, 9, high);
}
