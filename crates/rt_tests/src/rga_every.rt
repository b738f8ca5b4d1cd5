// Operations of a few sites, offered in each order there is, each twice.
use crate::checks::same;
use crate::rga_orders::{
    AB, B_GOES, Does, Made, OFF, OFF_LAST, OFF_TOO, ON, Peer, Q, Said, TAGGED, XX, Y, Z,
};
use std::alloc::Global;
use std::process::Abort;
use std::test::Fail;

/// Operations, how many orders they have, and in how many of these none is held; then their cells, and their text with
/// a star behind each tagged character.
type Orders = (&'static [Made], usize, usize, &'static str, &'static str);

// Of sites whose numbers take 16 bits, 17 and 32, at one place.
const OF_16_BITS: Made = (3, 65_535, 0, Does::Inserts((1, 1), &['x']));

const OF_17_BITS: Made = (3, 70_000, 0, Does::Inserts((1, 1), &['y']));

const OF_32_BITS: Made = (3, 4_294_967_295, 0, Does::Inserts((1, 1), &['z']));

const ORDERS: &[Orders] = &[
    (
        &[AB, XX, Y],
        6,
        2,
        "1.1a 3.2Y 3.1X 4.1X 2.1b 1.0\n ",
        "aYXXb\n",
    ),
    (&[AB, B_GOES, Z], 6, 2, "1.1a 2.1b- 3.2Z 1.0\n ", "aZ\n"),
    (
        &[TAGGED, OFF, ON, OFF_TOO],
        24,
        3,
        "1.1a 2.1b 1.0\n ",
        "a*b*\n",
    ),
    (
        &[TAGGED, OFF, ON, Q, OFF_LAST],
        120,
        6,
        "1.1a 2.1b 3.2q 1.0\n ",
        "ab*q\n",
    ),
    (&[AB, Y], 2, 1, "1.1a 3.2Y 2.1b 1.0\n ", "aYb\n"),
    (
        &[AB, OF_16_BITS, OF_17_BITS, OF_32_BITS],
        24,
        6,
        "1.1a 3.4294967295z 3.70000y 3.65535x 2.1b 1.0\n ",
        "azyxb\n",
    ),
];

// The order of a number, of which there are as many as orders: each operation is put among those before it at a place
// that the number tells.
fn order(alloc: Global, all: &[Made], number: usize) -> Result<Vec<Made>, Fail> {
    let mut order = Vec::new(alloc);
    let mut rest = number;
    for made in all {
        let places = order.len() + 1;
        order.insert(rest % places, *made)?;
        rest /= places;
    }
    Ok(order)
}

// Offers operations, each twice: it is new or held, and then a repeat. Answers whether none was held.
fn offer_early(rt: &impl Abort, peer: &mut Peer, all: &[Made]) -> bool {
    let mut held = 0;
    for made in all {
        let said = peer.offer(*made);
        let is_taken = said.is_new() || said == Said::Held;
        same(rt, (is_taken, peer.offer(*made)), (true, Said::Repeat));
        held = peer.replica.held().max(held);
    }
    held == 0
}

// Offers operations in an order to a new replica, which holds none in the end, and shows what is told then. Answers
// whether it held none before.
fn comes_out_early(
    rt: &impl Abort,
    alloc: Global,
    all: &[Made],
    cells: &str,
    text: &str,
) -> Result<bool, Fail> {
    let mut peer = Peer::new(alloc, 100)?;
    let held_none = offer_early(rt, &mut peer, all);
    same(rt, peer.replica.held(), 0);
    same(rt, peer.replica.log().len(), all.len());
    same(rt, peer.cells()?.as_str(), cells);
    same(rt, peer.reading()?.as_str(), text);
    Ok(held_none)
}

// Each order of operations comes out, and in so many of these none is held.
fn orders_come_out(rt: &impl Abort, alloc: Global, row: &Orders) -> Result<(), Fail> {
    let (all, orders, allowed, cells, text) = *row;
    let mut found: usize = 0;
    for number in 0..orders {
        let order = order(alloc, all, number)?;
        if comes_out_early(rt, alloc, &order, cells, text)? {
            found = found.saturating_add(1);
        }
    }
    same(rt, found, allowed);
    Ok(())
}

// The operations of each row come in each order there is.
#[test]
fn each_order_at_all(rt: HostRuntime) -> Result<(), Fail> {
    for row in ORDERS {
        orders_come_out(&rt, rt.alloc(), row)?;
    }
    Ok(())
}
