// Runs the sheets to try, and prints for each what is tried and what comes of it.
#![tactic(auto)]

mod example;

use layout::Drawn;
use refusal::Refusal;
use sheet::Sheet;
use std::{fmt, io};
use tree::NONE;

// A root with two leaves.
const FAMILY: [u16; 6] = [1, NONE, NONE, 2, NONE, NONE];

// Numbers, a space before each.
#[derive(Clone, Copy)]
struct Spaced<'a>(&'a [u16]);

impl fmt::Display for Spaced<'_> {
    fn fmt<W: fmt::Write>(&self, f: &mut fmt::Formatter<W>) -> fmt::Result {
        for number in self.0 {
            write!(f, " {number}")?;
        }
        Ok(())
    }
}

fn say_refused(rt: &impl Print, what: &str, refusal: Refusal) -> io::Result<()> {
    let number = refusal.number();
    println!(rt; "{what} refused {number}")
}

fn try_check(rt: &impl Print, what: &str, table: &[u16]) -> io::Result<()> {
    print!(rt; "{what}: ")?;
    match tree::check_table(table) {
        Ok(nodes) => println!(rt; "check accepted, nodes {nodes}"),
        Err(refusal) => say_refused(rt, "check", refusal),
    }
}

fn try_mirror(rt: &impl Print, what: &str, table: &[u16; 6]) -> io::Result<()> {
    let mut out = [0u16; 6];
    print!(rt; "{what}: ")?;
    match tree::mirror(table, &mut out) {
        Ok(()) => println!(rt; "mirror accepted, table{}", Spaced(&out)),
        Err(refusal) => say_refused(rt, "mirror", refusal),
    }
}

fn try_renumber(rt: &impl Print, what: &str, table: &[u16; 6]) -> io::Result<()> {
    let mut out = [0u16; 6];
    let mut map = [0u16; 3];
    print!(rt; "{what}: ")?;
    match tree::renumber(table, &mut out, &mut map) {
        Ok(()) => println!(rt;
            "renumber accepted, table{}, map{}",
            Spaced(&out),
            Spaced(&map)
        ),
        Err(refusal) => say_refused(rt, "renumber", refusal),
    }
}

fn try_read(rt: &impl Print, what: &str, file: &[u8]) -> io::Result<()> {
    let mut table = [0u16; 6];
    let mut tapes = [0u16; 6];
    let mut widths = [0u16; 3];
    print!(rt; "{what}: ")?;
    match sheet::read_sheet(file, &mut table, &mut tapes, &mut widths) {
        Ok(Sheet { nodes, separation }) => {
            print!(rt; "read accepted, nodes {nodes}, separation {separation}")?;
            println!(rt;
                ", table{}, tapes{}, half-widths{}",
                Spaced(&table),
                Spaced(&tapes),
                Spaced(&widths)
            )
        }
        Err(refusal) => say_refused(rt, "read", refusal),
    }
}

// The listing of up to eight nodes with tape numbers of 0; of more nothing.
fn say_listing(
    rt: &impl Print,
    drawn: Drawn,
    separation: u16,
    levels: &[u16],
    places: &[i32],
) -> io::Result<()> {
    let mut text = [0u8; 384];
    let written = lines::write_listing(
        drawn.nodes,
        drawn.levels,
        separation,
        drawn.least,
        drawn.greatest,
        levels,
        places,
        &[0u16; 16],
        &mut text,
    );
    match written {
        Some(end) => rt.write_all(&text[..end]),
        None => Ok(()),
    }
}

fn try_layout(
    rt: &impl Print,
    what: &str,
    table: &[u16],
    separation: u16,
    widths: &[u16],
    work: &mut [i32],
) -> io::Result<()> {
    let mut places = [0i32; 1024];
    let mut levels = [0u16; 1024];
    let mut measured = [0u16; 2048];
    print!(rt; "{what}: ")?;
    let laid = layout::layout(
        table,
        separation,
        widths,
        &mut places,
        &mut levels,
        &mut measured,
        work,
    );
    match laid {
        Ok(drawn) => {
            let Drawn {
                nodes,
                levels: level_count,
                pairs,
                ..
            } = drawn;
            println!(rt; "layout accepted, nodes {nodes}, levels {level_count}, pairs {pairs}")?;
            say_listing(rt, drawn, separation, &levels, &places)
        }
        Err(refusal) => say_refused(rt, "layout", refusal),
    }
}

fn try_list(rt: &impl Print, what: &str, file: &[u8]) -> io::Result<()> {
    let mut text = [0u8; render::TEXT_ROOM];
    println!(rt; "{what}: list")?;
    let end = render::list_sheet(file, &mut text).unwrap();
    rt.write_all(&text[..end])
}

// 1,024 nodes, each the first child of the one before it.
fn chain() -> [u16; 2048] {
    let mut table = [NONE; 2048];
    for node in 0..1023 {
        table[2 * node] = node as u16 + 1;
    }
    table
}

// A root with 1,023 leaves.
fn star() -> [u16; 2048] {
    let mut table = [NONE; 2048];
    table[0] = 1;
    for node in 1..1023 {
        table[2 * node + 1] = node as u16 + 1;
    }
    table
}

fn try_refused_tables(rt: &impl Print) -> io::Result<()> {
    try_check(rt, "P8, length 0", &[0u16; 0])?;
    try_check(rt, "P9, the root has a sibling", &[NONE, 1, NONE, NONE])?;
    try_check(rt, "P10, the root is its own child", &[0, NONE])?;
    try_check(
        rt,
        "P11, two nodes with no links",
        &[NONE, NONE, NONE, NONE],
    )?;
    try_check(
        rt,
        "1 and 2 name each other as first child",
        &[NONE, NONE, 2, NONE, 1, NONE],
    )
}

fn try_long_tables(rt: &impl Print) -> io::Result<()> {
    try_check(rt, "a chain of length 2,048", &chain())?;
    try_check(rt, "length 2,050", &[NONE; 2050])
}

fn try_turned_tables(rt: &impl Print) -> io::Result<()> {
    try_mirror(rt, "a root with two leaves", &FAMILY)?;
    try_renumber(
        rt,
        "a root with leaves 2 and 1",
        &[2, NONE, NONE, NONE, NONE, 1],
    )
}

fn try_separations(rt: &impl Print) -> io::Result<()> {
    let mut work = [0i32; 48];
    let none = [0u16; 3];
    try_layout(rt, "two leaves, D = 1", &FAMILY, 1, &none, &mut work)?;
    try_layout(rt, "two leaves, D = 1,024", &FAMILY, 1024, &none, &mut work)?;
    try_layout(rt, "two leaves, D = 1,025", &FAMILY, 1025, &none, &mut work)?;
    try_layout(rt, "two leaves, D = 0", &FAMILY, 0, &none, &mut work)
}

fn try_half_widths(rt: &impl Print) -> io::Result<()> {
    let mut work = [0i32; 48];
    let widths = [256, 4, 256, 257];
    try_layout(
        rt,
        "two leaves, half-widths 256, 4, 256 and a fourth of 257",
        &FAMILY,
        3,
        &widths,
        &mut work,
    )?;
    try_layout(
        rt,
        "two leaves, half-widths 0, 0, 257",
        &FAMILY,
        3,
        &[0, 0, 257],
        &mut work,
    )?;
    try_layout(
        rt,
        "two leaves, two half-widths",
        &FAMILY,
        3,
        &widths[..2],
        &mut work,
    )?;
    try_layout(
        rt,
        "two leaves, D = 0, no half-widths",
        &FAMILY,
        0,
        &widths[..0],
        &mut work,
    )
}

fn try_working_slices(rt: &impl Print) -> io::Result<()> {
    let mut work = [0i32; 48];
    let mut short = [0i32; 47];
    let none = [0u16; 3];
    try_layout(rt, "two leaves, work of 16n", &FAMILY, 3, &none, &mut work)?;
    try_layout(
        rt,
        "two leaves, work of 16n - 1",
        &FAMILY,
        3,
        &none,
        &mut short,
    )?;
    try_layout(
        rt,
        "1 and 2 name each other as first child",
        &[NONE, NONE, 2, NONE, 1, NONE],
        3,
        &none,
        &mut work,
    )
}

fn try_star(rt: &impl Print, work: &mut [i32]) -> io::Result<()> {
    let star = star();
    let none = [0u16; 1024];
    try_layout(rt, "a star of length 2,048, D = 1", &star, 1, &none, work)?;
    try_layout(
        rt,
        "a star of length 2,048, D = 1,024",
        &star,
        1024,
        &none,
        work,
    )
}

fn try_large_layouts(rt: &impl Print) -> io::Result<()> {
    let chain = chain();
    let mut work = [0i32; 16384];
    let none = [0u16; 1024];
    try_layout(
        rt,
        "a chain of length 2,048",
        &chain,
        1024,
        &none,
        &mut work,
    )?;
    try_star(rt, &mut work)?;
    try_layout(rt, "length 2,050", &[NONE; 2050], 1, &none, &mut work)?;
    let mut short = [0i32; 16383];
    try_layout(
        rt,
        "a chain, work of 16n - 1",
        &chain,
        1024,
        &none,
        &mut short,
    )
}

fn try_file(rt: &impl Print, what: &str, file: &[u8]) -> io::Result<()> {
    try_read(rt, what, file)?;
    try_list(rt, what, file)
}

fn try_files(rt: &impl Print) -> io::Result<()> {
    let mut file = example::file();
    try_file(rt, "the sheet file of a root with two leaves", &file)?;
    file[511] = 254;
    try_file(rt, "the same with a wrong check word", &file)
}

fn main(rt: HostRuntime) -> io::Result<()> {
    try_refused_tables(&rt)?;
    try_long_tables(&rt)?;
    try_turned_tables(&rt)?;
    try_separations(&rt)?;
    try_half_widths(&rt)?;
    try_working_slices(&rt)?;
    try_large_layouts(&rt)?;
    try_files(&rt)
}
