// Priors and tables at the ends of their rules: each input is one step inside a limit or one step past it, and the number it gets
// is the one of 01's table, with 0 for none: numbers, since they are what a call of the C interface gives. Tables of the largest lengths
// are tried elsewhere: they do not fit the stack here.
use crate::tallies::Tally;
use crate::tape::first_of;
use priors::addresses::{Address, write_rank};
use priors::lookups::LentPriors;
use priors::records::{RECORD_SIZE, Record};
use priors::refusals::number;
use priors::tables::LentTables;
use priors::words::write_u32;

const LARGEST: u32 = u32::MAX;

// 2^40, and the f64 after it.
const HIGHEST: f64 = 1099511627776.0;

const BEYOND: f64 = 1099511627776.000244140625;

// The record as it is lent.
fn bytes(record: Record) -> [u8; RECORD_SIZE] {
    let mut bytes = [0u8; RECORD_SIZE];
    write_rank(&mut bytes, 0, record.rank);
    write_u32(&mut bytes, 8, record.count);
    write_u32(&mut bytes, 12, record.link);
    bytes
}

// A record that is in order on its own: the scale 0, the point i, the count 1.
fn plain(i: u32, link: u32) -> Record {
    Record {
        rank: Address { scale: 0, point: i }.rank(),
        count: 1,
        link,
    }
}

// One at the largest address of the scale -1, which comes before the scale 0.
fn below_zero(link: u32) -> Record {
    Record {
        rank: Address {
            scale: -1,
            point: LARGEST,
        }
        .rank(),
        ..plain(0, link)
    }
}

// One with the count 0.
fn counts_nothing(link: u32) -> Record {
    Record {
        count: 0,
        ..plain(0, link)
    }
}

// The link of the record numbered i, where the first `linked` records are one chain.
// A link as it is lent: 0 ends a chain.
fn chain_link(i: u32, linked: u32) -> u32 {
    if linked.saturating_sub(i) < 2 {
        return 0;
    }
    i + 2
}

// Records with the points from 0 up, of which the first `linked` are one chain.
fn put_all(records: &mut [[u8; RECORD_SIZE]], linked: u32) {
    for (record, i) in records.iter_mut().zip(0..) {
        *record = bytes(plain(i, chain_link(i, linked)));
    }
}

// These priors get this number.
fn gets(nodes: &[u8], children: &[u8], wanted: u32) -> bool {
    let priors = LentPriors {
        nodes,
        children,
        floor: i32::MIN,
    };
    number(priors.check()) == wanted
}

// The same of records with the points from 0 up, of which the first `linked` children are one chain, and a node that starts it at `first`.
fn chain_gets(linked: u32, first: u32, wanted: u32) -> bool {
    let mut children = [[0u8; RECORD_SIZE]; 65];
    put_all(&mut children, linked);
    gets(
        &bytes(plain(0, first)),
        first_of(&children, linked as usize).as_flattened(),
        wanted,
    )
}

// The same of two nodes with these first links, and three children with these next links.
fn links_get(first: u32, second: u32, a: u32, b: u32, c: u32, wanted: u32) -> bool {
    let nodes = [plain(0, first), plain(1, second)].map(bytes);
    let children = [plain(0, a), plain(1, b), plain(2, c)].map(bytes);
    gets(nodes.as_flattened(), children.as_flattened(), wanted)
}

// The same of two nodes without children.
fn nodes_get(a: Record, b: Record, wanted: u32) -> bool {
    let nodes = [a, b].map(bytes);
    gets(nodes.as_flattened(), &[], wanted)
}

// The same of a node and a chain of two children.
fn pair_gets(a: Record, b: Record, wanted: u32) -> bool {
    let children = [a, b].map(bytes);
    gets(&bytes(plain(0, 1)), children.as_flattened(), wanted)
}

// The same of a node and a child.
fn node_gets(node: Record, child: Record, wanted: u32) -> bool {
    gets(&bytes(node), &bytes(child), wanted)
}

// Sizes: no record, 4,096 and 4,097 nodes, 16,384 and 16,385 children, and a byte too many or too few.
fn sizes(t: Tally, nodes: &[u8], children: &[u8]) -> Tally {
    t.with_all(&[
        gets(&[], &[], 0),
        gets(first_of(nodes, 65536), &[], 0),
        gets(first_of(nodes, 65552), &[], 3),
        gets(&[], first_of(children, 262144), 0),
        gets(&[], first_of(children, 262160), 3),
        gets(first_of(nodes, 65536), first_of(children, 262144), 0),
        gets(first_of(nodes, 17), &[], 3),
        gets(first_of(nodes, 16), first_of(children, 15), 3),
    ])
}

// Chains of 64 and of 65 records, and 64 of 65. Then a link to the record itself, to a lower one, past the end, and to the last; a
// first link past the end; tails that are shared.
fn links(t: Tally) -> Tally {
    t.with_all(&[
        chain_gets(64, 1, 0),
        chain_gets(65, 1, 5),
        chain_gets(65, 2, 0),
        links_get(0, 0, 0, 2, 0, 5),
        links_get(0, 0, 0, 1, 0, 5),
        links_get(0, 0, 0, 4, 0, 5),
        links_get(0, 0, 0, 3, 0, 0),
        links_get(4, 0, 0, 3, 0, 5),
        links_get(2, 1, 3, 3, 0, 0),
    ])
}

// The scale -1 before the scale 0 and not after it; an address twice; the largest point after the least.
fn orders(t: Tally) -> Tally {
    t.with_all(&[
        nodes_get(below_zero(0), plain(0, 0), 0),
        nodes_get(plain(0, 0), below_zero(0), 4),
        nodes_get(below_zero(0), below_zero(0), 4),
        nodes_get(plain(0, 0), plain(LARGEST, 0), 0),
        pair_gets(below_zero(2), plain(0, 0), 0),
        pair_gets(plain(0, 2), below_zero(0), 6),
        pair_gets(below_zero(2), below_zero(0), 6),
        pair_gets(plain(0, 2), plain(LARGEST, 0), 0),
    ])
}

// A child count of 0, reached or not; a node total of 0; a total that is the singleton or the chain alone.
fn totals(t: Tally) -> Tally {
    t.with_all(&[
        node_gets(plain(0, 1), counts_nothing(0), 7),
        node_gets(plain(0, 0), counts_nothing(0), 7),
        node_gets(counts_nothing(0), plain(0, 0), 7),
        node_gets(plain(0, 0), plain(0, 0), 0),
        node_gets(counts_nothing(1), plain(0, 0), 0),
    ])
}

// Two tables of one length whose entry at 1 is x get this number.
fn tables_get(zeroth: f64, x: f64, wanted: u32) -> bool {
    let g = [zeroth, x];
    let d = [0.0, 0.0];
    number(LentTables { g: &g, d: &d }.check()) == wanted
        && number(LentTables { g: &d, d: &g }.check()) == wanted
}

// Tables of these two lengths, all zeros, get this number.
fn lengths_get(n: usize, m: usize, wanted: u32) -> bool {
    let zeros = [0.0f64; 4];
    let tables = LentTables {
        g: first_of(&zeros, n),
        d: first_of(&zeros, m),
    };
    number(tables.check()) == wanted
}

// Lengths 0, 1 and 2, and unequal ones; entries at -2^40 and 2^40 and beyond; NaN where it is never read, and at 1.
fn tables(t: Tally) -> Tally {
    t.with_all(&[
        lengths_get(0, 0, 1),
        lengths_get(1, 1, 1),
        lengths_get(2, 2, 0),
        lengths_get(2, 3, 1),
        tables_get(0.0, HIGHEST, 0),
        tables_get(0.0, -HIGHEST, 0),
        tables_get(0.0, BEYOND, 2),
        tables_get(0.0, -BEYOND, 2),
        tables_get(0.0, f64::INFINITY, 2),
        tables_get(0.0, f64::NEG_INFINITY, 2),
        tables_get(f64::NAN, 0.0, 0),
        tables_get(0.0, f64::NAN, 2),
    ])
}

#[inline(never)]
pub fn run() -> Tally {
    let mut nodes = [[0u8; RECORD_SIZE]; 4097];
    let mut children = [[0u8; RECORD_SIZE]; 16385];
    put_all(&mut nodes, 0);
    put_all(&mut children, 0);
    let t = sizes(Tally::new(), nodes.as_flattened(), children.as_flattened());
    tables(totals(orders(links(t))))
}
