// Drawn scripts of three actors.
use drawn_numbers::Draws;
use std::alloc::Global;
use vm_ids::NoMemory;

// A script has so many drawn lines.
const LINES: u32 = 80;

/// Whose pages an actor loads and stores.
#[derive(Clone, Copy, PartialEq)]
pub enum Touched {
    /// Those of a cache of its own.
    Own,
    /// Those of all caches.
    All,
}

// Three actors, three caches of nine pages, and each cache mapped by each actor.
const OPENING: &str = "actor
actor
actor
temp 9
temp 9
temp 9
map a1 c1 0 9 10000 rw
map a1 c2 0 9 20000 rw
map a1 c3 0 9 30000 rw
map a2 c1 0 9 10000 rw
map a2 c2 0 9 20000 rw
map a2 c3 0 9 30000 rw
map a3 c1 0 9 10000 rw
map a3 c2 0 9 20000 rw
map a3 c3 0 9 30000 rw
";

// A drawn line: a load or a store, or now and then a copy or a page-out.
fn drawn_line(alloc: Global, draws: &mut Draws, touched: Touched) -> Result<String, NoMemory> {
    let actor = draws.below(3) + 1;
    let drawn = draws.below(3) + 1;
    let page = draws.below(9);
    let byte = draws.below(256);
    let cache = match touched {
        Touched::Own => actor,
        Touched::All => drawn,
    };
    let to = draws.below(9);
    Ok(match draws.below(12) {
        0..=4 => format!(in alloc; "load a{actor} {cache}{page}000 2\n")?,
        5..=8 => format!(in alloc; "store a{actor} {cache}{page}000 {byte:02x}\n")?,
        9 => format!(in alloc; "copy c{drawn} {page} c{cache} {to} 1\n")?,
        10 => format!(in alloc; "copy c{drawn} 0 c{} 0 9\n", drawn % 3 + 1)?,
        _ => format!(in alloc; "pageout {}\n", to + 1)?,
    })
}

/// A drawn script of 95 lines: three actors and three caches are made, which all actors map, and 80
/// lines are drawn.
pub fn drawn_script(
    alloc: Global,
    draws: &mut Draws,
    touched: Touched,
) -> Result<String, NoMemory> {
    let mut script = String::new(alloc);
    script.push_str(OPENING)?;
    for _ in 0..LINES {
        script.push_str(drawn_line(alloc, draws, touched)?.as_str())?;
    }
    Ok(script)
}
