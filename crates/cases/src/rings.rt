// The rings that are shown: those that document 01 works by hand, and three for the tight link.
use hop::Kind;

// A ring's numbers, and the ticks at which its loads are shown.
#[derive(Clone, Copy)]
pub(crate) struct Ring<'a> {
    pub(crate) label: &'a str,
    pub(crate) kind: Kind,
    pub(crate) loads: &'a [u16],
    pub(crate) surpluses: &'a [i16],
    pub(crate) costs: &'a [u16],
    pub(crate) ticks: &'a [u32],
}

impl Ring<'_> {
    // Writes its job. How many bytes that has, none where it is refused.
    pub(crate) fn write(&self, buf: &mut [u8]) -> usize {
        let kind = self.kind.number();
        hop::write(kind, self.loads, self.surpluses, self.costs, buf).unwrap_or(0)
    }

    // How many columns its boards have in all.
    pub(crate) fn columns(&self) -> usize {
        self.loads
            .iter()
            .map(|load| usize::from(*load))
            .fold(0, usize::saturating_add)
    }
}

// Last come ring A with link 0 upgraded, which ends as it did, and with link 1 upgraded, which ends sooner; and a ring whose link 0 takes as long for 2
// items as link 1 does for 3.
pub(crate) static RINGS: [Ring; 12] = [
    Ring {
        label: "A",
        kind: Kind::MixedOneWay,
        loads: &[5, 1, 1, 2],
        surpluses: &[3, 0, -2, -1],
        costs: &[2, 3, 1, 4],
        ticks: &[0, 1, 3, 6, 8, 9, 4294967295],
    },
    Ring {
        label: "B",
        kind: Kind::TwoWay,
        loads: &[6, 1, 1, 1],
        surpluses: &[4, -2, -1, -1],
        costs: &[5, 5, 5, 5],
        ticks: &[0, 1, 5, 10, 15, 19, 20],
    },
    Ring {
        label: "C",
        kind: Kind::OneWay,
        loads: &[2, 1],
        surpluses: &[1, -1],
        costs: &[7, 7],
        ticks: &[0, 1, 6, 7],
    },
    Ring {
        label: "C2",
        kind: Kind::OneWay,
        loads: &[1, 2],
        surpluses: &[-1, 1],
        costs: &[7, 7],
        ticks: &[0, 1, 6, 7],
    },
    Ring {
        label: "D",
        kind: Kind::MixedOneWay,
        loads: &[2, 1],
        surpluses: &[1, -1],
        costs: &[1, 100],
        ticks: &[0, 1],
    },
    Ring {
        label: "E",
        kind: Kind::OneWay,
        loads: &[1, 1, 1],
        surpluses: &[0, 0, 0],
        costs: &[1, 1, 1],
        ticks: &[0, 1, 4294967295],
    },
    Ring {
        label: "F",
        kind: Kind::OneWay,
        loads: &[2, 1, 1],
        surpluses: &[1, 0, -1],
        costs: &[1, 1, 1],
        ticks: &[0, 1],
    },
    Ring {
        label: "G",
        kind: Kind::TwoWay,
        loads: &[3, 3, 3, 1, 1, 1],
        surpluses: &[2, 2, 2, -2, -2, -2],
        costs: &[1, 1, 1, 1, 1, 1],
        ticks: &[0, 1, 2, 3],
    },
    Ring {
        label: "H",
        kind: Kind::TwoWay,
        loads: &[4, 1, 1],
        surpluses: &[3, -2, -1],
        costs: &[1, 1, 1],
        ticks: &[0, 1, 2, 3],
    },
    Ring {
        label: "A, link 0 upgraded",
        kind: Kind::MixedOneWay,
        loads: &[5, 1, 1, 2],
        surpluses: &[3, 0, -2, -1],
        costs: &[1, 3, 1, 4],
        ticks: &[3, 9],
    },
    Ring {
        label: "A, link 1 upgraded",
        kind: Kind::MixedOneWay,
        loads: &[5, 1, 1, 2],
        surpluses: &[3, 0, -2, -1],
        costs: &[2, 2, 1, 4],
        ticks: &[3, 6],
    },
    Ring {
        label: "two as tight",
        kind: Kind::MixedOneWay,
        loads: &[3, 2, 1],
        surpluses: &[2, 1, -3],
        costs: &[3, 2, 9],
        ticks: &[3, 6],
    },
];
