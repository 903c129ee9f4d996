// Loads and stores, and what is refused, with the whole output.

// The least script that does something.
pub const LEAST_SUCCESS: &str = "actor
temp 1
map a1 c1 0 1 10000 rw
store a1 10000 0a0b
load a1 10000 2
temp 1
copy c1 0 c2 0 1
";

pub const LEAST_SUCCESS_REPLIES: &str = "1 ok a1
2 ok c1
3 ok r1
4 ok
5 ok 0a0b
6 ok c2
7 ok
";

// No line at all.
pub const EMPTY_SCRIPT: &str = "";

pub const EMPTY_SCRIPT_REPLIES: &str = "";

// A page that was never stored to.
pub const ZEROS: &str = "actor
temp 1
map a1 c1 0 1 10000 rw
load a1 10000 4
";

pub const ZEROS_REPLIES: &str = "1 ok a1
2 ok c1
3 ok r1
4 ok 00000000
";

// Accesses at the borders of a region and of a page.
pub const BORDERS: &str = "actor
temp 1
map a1 c1 0 1 10000 rw
load a1 10fff 1
load a1 11000 1
load a1 10fff 2
";

pub const BORDERS_REPLIES: &str = "1 ok a1
2 ok c1
3 ok r1
4 ok 00
5 no BadAddress
6 no Crosses
";

// Addresses and accesses at the borders of pages of 512 bytes.
pub const PAGE_OF_512_BYTES: &str = "actor
temp 1
map a1 c1 0 1 10300 rw
map a1 c1 0 1 10200 rw
load a1 103ff 1
load a1 103ff 2
load a1 10400 1
";

pub const PAGE_OF_512_BYTES_REPLIES: &str = "1 ok a1
2 ok c1
3 no Unaligned
4 ok r1
5 ok 00
6 no Crosses
7 no BadAddress
";

// A refusal of each kind, and a region that is split.
pub const REFUSALS: &str = "actor
temp 2
map a1 c1 0 2 10000 rw
map a1 c1 0 1 30001 rw
map a1 c1 1 2 40000 rw
map a1 c1 0 1 11000 r
split r1 2
split r1 1
destroy c1
invalidate c1 0 1
open 9
chain c1 2
temp 4194303
copy c1 0 c2 0 1
load a2 10000 1
unmap r9
load a1 10000 65

grow
";

pub const REFUSALS_REPLIES: &str = "1 ok a1
2 ok c1
3 ok r1
4 no Unaligned
5 no OutOfCache
6 no Overlap
7 no BadAddress
8 ok r2
9 no InUse
10 no NotNamed
11 no NoSegment
12 no OutOfCache
13 no TooMany
14 no NoCache
15 no NoActor
16 no NoRegion
17 no BadLine
18 no BadLine
19 no BadLine
";

// Pages that come back as a mapper gave them, each of one number that goes up from 7, whatever was
// stored to them.
pub const WRONG_PAGES: &str = "actor
temp 9
temp 9
map a1 c1 0 9 10000 rw
map a1 c2 0 9 20000 rw
store a1 10000 01
copy c1 0 c2 0 9
pageout 4
load a1 20000 1
load a1 10000 1
pageout 4
load a1 10000 2
store a1 20000 02
load a1 20000 2
load a1 10000 1
stat
";

pub const WRONG_PAGES_REPLIES: &str = "1 ok a1
2 ok c1
3 ok c2
4 ok r1
5 ok r2
6 ok
7 ok
8 ok
9 ok 07
10 ok 07
11 ok
12 ok 0808
13 ok
14 ok 0208
15 ok 08
16 stat live 18 working 0 copies 1
";
