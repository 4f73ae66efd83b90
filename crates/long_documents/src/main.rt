//! Documents with the longest lists of operands, and with the longest paths of diagrams, that the limits allow.
#![tactic(auto)]

mod compiled;
mod documents;

use compiled::compare;
use documents::{Repeated, Values};
use std::io;

/// Lists of operands, each with the operator and the document that repeats an operand.
const LISTS: [(&str, Repeated); 7] = [
    (
        "+",
        Repeated {
            front: "switch s1 = 1 ports 1; part a = identity",
            operand: " + identity",
            count: 40_000,
            back: ";",
        },
    ),
    (
        ">>",
        Repeated {
            front: "switch s1 = 1 ports 1; part a = identity",
            operand: " >> identity",
            count: 40_000,
            back: ";",
        },
    ),
    (
        "or",
        Repeated {
            front: "switch s1 = 1 ports 1; part a = filter(port=1",
            operand: " or port=1",
            count: 40_000,
            back: ");",
        },
    ),
    (
        "and",
        Repeated {
            front: "switch s1 = 1 ports 1; part a = filter(port=1",
            operand: " and port=1",
            count: 40_000,
            back: ");",
        },
    ),
    (
        "|",
        Repeated {
            front: "switch s1 = 1 ports 1; query q = in_atom(true)",
            operand: "|in_atom(true)",
            count: 37_000,
            back: ";",
        },
    ),
    (
        "&",
        Repeated {
            front: "switch s1 = 1 ports 1; query q = in_atom(true)",
            operand: "&in_atom(true)",
            count: 37_000,
            back: ";",
        },
    ),
    (
        "^",
        Repeated {
            front: "switch s1 = 1 ports 1; query q = in_atom(true)*",
            operand: "^in_atom(true)*",
            count: 34_900,
            back: ";",
        },
    ),
];

fn main(rt: HostRuntime) -> io::Result<()> {
    let alloc = rt.alloc();
    for (operator, list) in LISTS {
        let found = compare(alloc, &list.long(alloc)?, &list.short(alloc)?)?;
        println!(rt; "{} operands of {operator}: {found}", list.count)?;
    }
    for addresses in [false, true] {
        let up = Values {
            addresses,
            descending: false,
        };
        let down = Values {
            addresses,
            descending: true,
        };
        let found = compare(alloc, &up.text(alloc)?, &down.text(alloc)?)?;
        println!(rt; "many values, with addresses {addresses}: {found}")?;
    }
    Ok(())
}
