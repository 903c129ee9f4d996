// A hundred pages in four frames, copied at once, with the whole output.
use std::alloc::Global;
use vm_ids::NoMemory;

const OPENING: &str = "actor
temp 100
temp 100
map a1 c1 0 100 100000 rw
map a1 c2 0 100 200000 rw
";

const OPENING_REPLIES: &str = "1 ok a1
2 ok c1
3 ok c2
4 ok r1
5 ok r2
";

// The number of each page is stored to it, and the pages are copied; then those of the copy are
// loaded.
pub(crate) fn script(alloc: Global) -> Result<String, NoMemory> {
    let mut script = String::new(alloc);
    script.push_str(OPENING)?;
    for page in 0..100u32 {
        script.push_str(format!(in alloc; "store a1 1{page:02x}000 {page:02x}\n")?.as_str())?;
    }
    script.push_str("copy c1 0 c2 0 100\n")?;
    for page in 0..100u32 {
        script.push_str(format!(in alloc; "load a1 2{page:02x}000 1\n")?.as_str())?;
    }
    Ok(script)
}

pub(crate) fn replies(alloc: Global) -> Result<String, NoMemory> {
    let mut replies = String::new(alloc);
    replies.push_str(OPENING_REPLIES)?;
    for line in 6..107u32 {
        replies.push_str(format!(in alloc; "{line} ok\n")?.as_str())?;
    }
    for page in 0..100u32 {
        replies.push_str(format!(in alloc; "{} ok {page:02x}\n", page + 107)?.as_str())?;
    }
    Ok(replies)
}
