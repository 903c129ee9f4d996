// More pages than frames, locks, translations, and the greatest number of pages, with the whole
// output.

// Nine pages in three frames.
pub const THREE_FRAMES: &str = "actor
temp 9
map a1 c1 0 9 100000 rw
store a1 100000 01
store a1 101000 02
store a1 102000 03
store a1 103000 04
store a1 104000 05
store a1 105000 06
store a1 106000 07
store a1 107000 08
store a1 108000 09
load a1 100000 1
load a1 101000 1
load a1 102000 1
load a1 103000 1
load a1 104000 1
load a1 105000 1
load a1 106000 1
load a1 107000 1
load a1 108000 1
";

pub const THREE_FRAMES_REPLIES: &str = "1 ok a1
2 ok c1
3 ok r1
4 ok
5 ok
6 ok
7 ok
8 ok
9 ok
10 ok
11 ok
12 ok
13 ok 01
14 ok 02
15 ok 03
16 ok 04
17 ok 05
18 ok 06
19 ok 07
20 ok 08
21 ok 09
";

// A push of a victim that fails, once.
pub const VICTIMS_PUSH_FAILS: &str = "actor
temp 4
map a1 c1 0 4 10000 rw
store a1 10000 01
store a1 11000 02
store a1 12000 03
store a1 13000 04
load a1 13000 1
store a1 13000 04
load a1 13000 1
load a1 10000 1
load a1 11000 1
load a1 12000 1
";

pub const VICTIMS_PUSH_FAILS_REPLIES: &str = "1 ok a1
2 ok c1
3 ok r1
4 ok
5 ok
6 ok
7 fault mapper victim
8 ok 00
9 ok
10 ok 04
11 ok 01
12 ok 02
13 ok 03
";

// A page of a copy that is loaded before its source is stored to.
pub const TRANSLATION_TO_THE_SOURCE: &str = "actor
temp 9
temp 9
map a1 c1 0 9 10000 rw
map a1 c2 0 9 20000 rw
store a1 10000 01
copy c1 0 c2 0 9
chain c2 0
load a1 20000 1
store a1 10000 02
load a1 20000 1
load a1 10000 1
chain c2 0
chain c1 0
stat
";

pub const TRANSLATION_TO_THE_SOURCE_REPLIES: &str = "1 ok a1
2 ok c1
3 ok c2
4 ok r1
5 ok r2
6 ok
7 ok
8 chain c2:0+0 c1:0+1*
9 ok 01
10 ok
11 ok 01
12 ok 02
13 chain c2:0+0*
14 chain c1:0+1*
15 stat live 18 working 0 copies 1
";

// Regions of a copy are locked, as far as three frames are left; what a lock refuses is refused.
pub const LOCKS: &str = "actor
temp 6
temp 6
map a1 c1 0 6 10000 rw
store a1 10000 01
copy c1 0 c2 0 6
map a1 c2 0 5 20000 rw
map a1 c2 5 1 30000 rw
lock r2
lock r3
lock r2
unlock r3
store a1 20000 02
load a1 10000 1
unmap r2
copy c1 0 c2 0 1
unlock r2
lock r3
stat
";

pub const LOCKS_REPLIES: &str = "1 ok a1
2 ok c1
3 ok c2
4 ok r1
5 ok
6 ok
7 ok r2
8 ok r3
9 ok
10 no LockLimit
11 no Locked
12 no NotLocked
13 ok
14 ok 01
15 no Locked
16 no Locked
17 ok
18 ok
19 stat live 12 working 0 copies 6
";

// As many pages as may be live, and room again once their cache is gone.
pub const LIVE_PAGE_LIMIT: &str = "temp 4194304
temp 1
destroy c1
temp 1
";

pub const LIVE_PAGE_LIMIT_REPLIES: &str = "1 ok c1
2 no TooMany
3 ok
4 ok c2
";
