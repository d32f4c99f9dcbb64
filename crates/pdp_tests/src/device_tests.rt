// Accesses, events and grants, worked out by hand.

use pdp_dev::devices::{Devices, Request};
use pdp_dev::entry::{Entry, Event, Port};

#[test]
fn reader_asks_at_the_end_of_its_tape(rt: HostRuntime) {
    let mut devices = Devices::new();
    assert_eq!(rt; devices.write(0o177550, 0o101), None);
    assert_eq!(rt; devices.peek(0o177550), 0o4100);
    assert_eq!(rt; devices.pending(), None);
    devices.happen(Event::Reader(None));
    let request = Request {
        vector: 0o70,
        level: 4,
    };
    assert_eq!(rt; devices.pending(), Some(request));
    assert_eq!(rt; devices.peek(0o177550), 0o100100);
}

#[test]
fn clock_asks_at_ticks_alone(rt: HostRuntime) {
    let mut devices = Devices::new();
    assert_eq!(rt; devices.write(0o177546, 0o100), None);
    assert_eq!(rt; devices.pending(), None);
    devices.happen(Event::Clock);
    let request = Request {
        vector: 0o100,
        level: 6,
    };
    assert_eq!(rt; devices.pending(), Some(request));
    assert_eq!(rt; devices.peek(0o177546), 0o300);
    assert_eq!(rt; devices.write(0o177546, 0o100), None);
    assert_eq!(rt; devices.pending(), None);
    assert_eq!(rt; devices.peek(0o177546), 0o100);
}

#[test]
fn serves_equal_levels_in_order(rt: HostRuntime) {
    let mut devices = Devices::new();
    assert_eq!(rt; devices.write(0o177564, 0o100), None);
    assert_eq!(rt; devices.write(0o177560, 0o100), None);
    assert_eq!(rt; devices.write(0o177554, 0o100), None);
    assert_eq!(rt; devices.write(0o177550, 0o101), None);
    devices.happen(Event::Key(0o101));
    devices.happen(Event::Reader(Some(0o102)));
    for vector in [0o70, 0o74, 0o60, 0o64] {
        let request = Request { vector, level: 4 };
        assert_eq!(rt; devices.pending(), Some(request));
        devices.granted(request);
    }
    assert_eq!(rt; devices.pending(), None);
    assert_eq!(rt; devices.peek(0o177564), 0o300);
    devices.reset();
    assert_eq!(rt; devices, Devices::new());
}

#[test]
fn gives_bytes_once(rt: HostRuntime) {
    let mut devices = Devices::new();
    devices.happen(Event::Key(0o101));
    devices.happen(Event::Key(0o102));
    assert_eq!(rt; devices.peek(0o177560), 0o200);
    assert_eq!(rt; devices.read(0o177562), 0o102);
    assert_eq!(rt; devices.peek(0o177560), 0);
    assert_eq!(rt; devices.write(0o177550, 1), None);
    devices.happen(Event::Reader(Some(0o103)));
    assert_eq!(rt; devices.peek(0o177550), 0o200);
    assert_eq!(rt; devices.read(0o177552), 0o103);
    assert_eq!(rt; devices.peek(0o177550), 0);
}

#[test]
fn loses_a_byte_while_busy(rt: HostRuntime) {
    let mut devices = Devices::new();
    assert_eq!(rt; devices.write(0o177566, 0o501), Some(Entry::Print(0o101)));
    assert_eq!(rt;
        devices.write(0o177566, 0o102),
        Some(Entry::Lost(Port::Printer, 0o102))
    );
    assert_eq!(rt; devices.write(0o177556, 0o103), Some(Entry::Punch(0o103)));
    assert_eq!(rt;
        devices.write(0o177556, 0o104),
        Some(Entry::Lost(Port::Punch, 0o104))
    );
    assert!(rt; devices.printer_busy() && devices.punch_busy());
    devices.happen(Event::Printer);
    assert_eq!(rt; devices.peek(0o177564), 0o200);
    assert_eq!(rt; devices.peek(0o177554), 0);
}
