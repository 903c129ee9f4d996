// Copies and moves with the whole output, worked out by the rules of the page forest.

// A copy of nine pages, whose source is then stored to.
pub const TREE_COPY_OF_NINE_PAGES: &str = "actor
temp 9
temp 9
map a1 c1 0 9 10000 rw
map a1 c2 0 9 20000 rw
store a1 10000 01
copy c1 0 c2 0 9
chain c2 0
store a1 10000 02
load a1 20000 1
load a1 10000 1
chain c2 0
chain c1 0
stat
";

pub const TREE_COPY_OF_NINE_PAGES_REPLIES: &str = "1 ok a1
2 ok c1
3 ok c2
4 ok r1
5 ok r2
6 ok
7 ok
8 chain c2:0+0 c1:0+1*
9 ok
10 ok 01
11 ok 02
12 chain c2:0+0*
13 chain c1:0+1*
14 stat live 18 working 0 copies 1
";

// Two copies of 300,000 pages: working nodes stand between, as in copies of few pages.
pub const LINKS_AS_RUNS: &str = "temp 300000
temp 300000
temp 300000
copy c1 0 c2 0 300000
copy c1 0 c3 0 300000
stat
chain c2 7
";

pub const LINKS_AS_RUNS_REPLIES: &str = "1 ok c1
2 ok c2
3 ok c3
4 ok
5 ok
6 stat live 900000 working 300000 copies 0
7 chain c2:7+0 w8+2 c1:7+1*
";

// One cache copied three times, with working nodes.
pub const COPIED_THREE_TIMES: &str = "actor
temp 9
temp 9
temp 9
temp 9
map a1 c1 0 9 10000 rw
map a1 c2 0 9 20000 rw
map a1 c3 0 9 30000 rw
map a1 c4 0 9 40000 rw
store a1 10000 01
copy c1 0 c2 0 9
store a1 10000 02
copy c1 0 c3 0 9
store a1 10000 03
copy c1 0 c4 0 9
store a1 10000 04
load a1 10000 1
load a1 20000 1
load a1 30000 1
load a1 40000 1
chain c2 0
chain c3 0
chain c4 0
chain c2 1
stat
";

pub const COPIED_THREE_TIMES_REPLIES: &str = "1 ok a1
2 ok c1
3 ok c2
4 ok c3
5 ok c4
6 ok r1
7 ok r2
8 ok r3
9 ok r4
10 ok
11 ok
12 ok
13 ok
14 ok
15 ok
16 ok
17 ok 04
18 ok 01
19 ok 02
20 ok 03
21 chain c2:0+0*
22 chain c3:0+0 w1+2*
23 chain c4:0+0 w10+2*
24 chain c2:1+0 w2+2 w11+2 c1:1+1*
25 stat live 36 working 18 copies 3
";

// Copies of eight pages.
pub const STUBS: &str = "actor
temp 8
temp 8
temp 8
map a1 c1 0 8 10000 rw
map a1 c2 0 8 20000 rw
map a1 c3 0 8 30000 rw
store a1 10000 01
copy c1 0 c2 0 8
copy c1 0 c3 0 8
chain c1 0
store a1 10000 02
chain c3 0
chain c1 0
store a1 20000 03
load a1 10000 1
load a1 20000 1
load a1 30000 1
stat
";

pub const STUBS_REPLIES: &str = "1 ok a1
2 ok c1
3 ok c2
4 ok c3
5 ok r1
6 ok r2
7 ok r3
8 ok
9 ok
10 ok
11 chain c1:0+2*
12 ok
13 chain c3:0+0 c2:0+1*
14 chain c1:0+0*
15 ok
16 ok 02
17 ok 03
18 ok 01
19 stat live 24 working 0 copies 2
";

// A page copied there and back.
pub const THERE_AND_BACK: &str = "actor
temp 1
temp 1
map a1 c1 0 1 10000 rw
map a1 c2 0 1 20000 rw
store a1 10000 01
copy c1 0 c2 0 1
copy c2 0 c1 0 1
chain c1 0
store a1 10000 02
store a1 20000 03
load a1 10000 1
load a1 20000 1
stat
";

pub const THERE_AND_BACK_REPLIES: &str = "1 ok a1
2 ok c1
3 ok c2
4 ok r1
5 ok r2
6 ok
7 ok
8 ok
9 chain c1:0+0 c2:0+1*
10 ok
11 ok
12 ok 02
13 ok 03
14 stat live 2 working 0 copies 1
";

// A copy of a copy, of which the middle is stored to.
pub const COPY_OF_A_COPY: &str = "actor
temp 9
temp 9
temp 9
map a1 c1 0 9 10000 rw
map a1 c2 0 9 20000 rw
map a1 c3 0 9 30000 rw
store a1 10000 01
copy c1 0 c2 0 9
copy c2 0 c3 0 9
chain c3 0
store a1 20000 02
load a1 10000 1
load a1 20000 1
load a1 30000 1
stat
";

pub const COPY_OF_A_COPY_REPLIES: &str = "1 ok a1
2 ok c1
3 ok c2
4 ok c3
5 ok r1
6 ok r2
7 ok r3
8 ok
9 ok
10 ok
11 chain c3:0+0 c2:0+1 c1:0+1*
12 ok
13 ok 01
14 ok 02
15 ok 01
16 stat live 27 working 0 copies 2
";

// A source that is destroyed, and a merge once one copy is left.
pub const DEAD_SOURCE_THEN_A_MERGE: &str = "actor
temp 9
temp 9
temp 9
map a1 c1 0 9 10000 rw
map a1 c2 0 9 20000 r
store a1 10000 01
copy c1 0 c2 0 9
copy c1 0 c3 0 9
destroy c1
unmap r1
destroy c1
chain c2 0
stat
destroy c3
chain c2 0
stat
load a1 20000 1
";

pub const DEAD_SOURCE_THEN_A_MERGE_REPLIES: &str = "1 ok a1
2 ok c1
3 ok c2
4 ok c3
5 ok r1
6 ok r2
7 ok
8 ok
9 ok
10 no InUse
11 ok
12 ok
13 chain c2:0+0 w1+2*
14 stat live 18 working 9 copies 0
15 ok
16 chain c2:0+0*
17 stat live 9 working 0 copies 0
18 ok 01
";

// A page that moves after it was copied.
pub const MOVE_OF_A_COPIED_PAGE: &str = "actor
temp 1
temp 1
temp 1
map a1 c1 0 1 10000 rw
map a1 c2 0 1 20000 rw
map a1 c3 0 1 30000 rw
store a1 10000 09
copy c1 0 c3 0 1
move c1 0 c2 0 1
chain c3 0
load a1 10000 1
load a1 20000 1
store a1 20000 0a
load a1 30000 1
stat
";

pub const MOVE_OF_A_COPIED_PAGE_REPLIES: &str = "1 ok a1
2 ok c1
3 ok c2
4 ok c3
5 ok r1
6 ok r2
7 ok r3
8 ok
9 ok
10 ok
11 chain c3:0+0 c2:0+1*
12 ok 00
13 ok 09
14 ok
15 ok 09
16 stat live 3 working 0 copies 1
";

// A page copied by a long and by a short copy.
pub const TREE_CHILD_BEFORE_STUBS: &str = "actor
temp 9
temp 9
temp 9
map a1 c1 0 9 10000 rw
map a1 c2 0 9 20000 rw
map a1 c3 0 9 30000 rw
store a1 10000 01
copy c1 0 c2 0 9
copy c1 0 c3 0 1
chain c1 0
store a1 10000 02
chain c3 0
stat
";

pub const TREE_CHILD_BEFORE_STUBS_REPLIES: &str = "1 ok a1
2 ok c1
3 ok c2
4 ok c3
5 ok r1
6 ok r2
7 ok r3
8 ok
9 ok
10 ok
11 chain c1:0+2*
12 ok
13 chain c3:0+0 c2:0+1*
14 stat live 27 working 0 copies 1
";

// A move inside one cache.
pub const MOVE_INSIDE_ONE_CACHE: &str = "actor
temp 2
map a1 c1 0 2 10000 rw
store a1 10000 07
move c1 0 c1 1 1
load a1 10000 1
load a1 11000 1
move c1 0 c1 0 1
";

pub const MOVE_INSIDE_ONE_CACHE_REPLIES: &str = "1 ok a1
2 ok c1
3 ok r1
4 ok
5 ok
6 ok 00
7 ok 07
8 no Overlap
";

// Overlaps in a temporary cache.
pub const OVERLAP: &str = "temp 4
copy c1 0 c1 1 2
copy c1 0 c1 2 2
copy c1 3 c1 4 1
move c1 0 c1 0 1
";

pub const OVERLAP_REPLIES: &str = "1 ok c1
2 no Overlap
3 ok
4 no OutOfCache
5 no Overlap
";
