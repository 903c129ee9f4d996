// Scripts over segments with their whole output, worked out by hand from the rules of the commands
// and of the page forest.

// A copy of a segment outlives its cache, and keeps what the segment was.
pub const SEGMENT_REOPENED: &str = "actor
open 4
temp 1
copy c1 0 c2 0 1
open 4
destroy c1
open 4
map a1 c3 0 1 10000 rw
map a1 c2 0 1 20000 r
store a1 10000 5a
sync c3 0 1
load a1 20000 2
load a1 10000 2
stat
";

pub const SEGMENT_REOPENED_REPLIES: &str = "1 ok a1
2 ok c1
3 ok c2
4 ok
5 no SegmentInUse
6 ok
7 ok c3
8 ok r1
9 ok r2
10 ok
11 ok
12 ok 4142
13 ok 5a42
14 stat live 2 working 0 copies 1
";

// A page that is denied for writing, an inherited page that is pushed and stays inherited, and a
// region that is no more for writing.
pub const DENIED_PAGE: &str = "open 1
temp 2
actor
map a1 c2 0 2 20000 rw
store a1 20000 77
copy c2 0 c1 0 2
copy c2 0 c1 0 1
chain c1 0
sync c1 0 1
chain c1 0
map a1 c1 0 2 10000 rw
load a1 10000 1
load a1 11000 1
store a1 11000 01
protect r2 r
store a1 10000 01
";

pub const DENIED_PAGE_REPLIES: &str = "1 ok c1
2 ok c2
3 ok a1
4 ok r1
5 ok
6 no WriteDenied
7 ok
8 chain c1:0+0 c2:0+1*
9 ok
10 chain c1:0+0 c2:0+1*
11 ok r2
12 ok 77
13 ok 42
14 no WriteDenied
15 ok
16 no Protection
";

// Pages of a segment are moved nowhere.
pub const REFUSED_MOVES: &str = "temp 4
copy c1 0 c1 1 2
copy c1 0 c1 2 2
copy c1 3 c1 4 1
open 1
move c2 0 c1 0 1
move c1 0 c1 0 1
";

pub const REFUSED_MOVES_REPLIES: &str = "1 ok c1
2 no Overlap
3 ok
4 no OutOfCache
5 ok c2
6 no NotTemp
7 no Overlap
";

// What was not pushed is lost, and what was flushed is not.
pub const INVALIDATE_AND_FLUSH: &str = "actor
open 1
map a1 c1 0 1 10000 rw
store a1 10000 58
invalidate c1 0 1
load a1 10000 1
store a1 10000 58
flush c1 0 1
invalidate c1 0 1
load a1 10000 1
";

pub const INVALIDATE_AND_FLUSH_REPLIES: &str = "1 ok a1
2 ok c1
3 ok r1
4 ok
5 ok
6 ok 41
7 ok
8 ok
9 ok
10 ok 58
";

// A cache of a segment stays where a page of it can't be saved.
pub const A_SAVE_FAILS: &str = "open 1
temp 2
copy c1 0 c2 0 2
destroy c1
stat
destroy c1
stat
";

pub const A_SAVE_FAILS_REPLIES: &str = "1 ok c1
2 ok c2
3 ok
4 fault mapper save 1
5 stat live 4 working 0 copies 1
6 ok
7 stat live 2 working 0 copies 2
";

// Text that two actors share, and data that is forked three times, in six frames.
pub const TEXT_SHARED_AND_DATA_FORKED: &str = "actor
open 1
map a1 c1 0 2 400000 r
temp 10
map a1 c2 0 10 600000 rw
store a1 600000 11
store a1 609000 22
actor
map a2 c1 0 2 400000 r
temp 10
copy c2 0 c3 0 10
map a2 c3 0 10 600000 rw
store a2 600000 33
temp 10
copy c2 0 c4 0 10
pageout 100
store a1 600000 44
temp 10
copy c2 0 c5 0 10
store a1 609000 55
load a1 400000 2
load a2 400000 2
load a1 600000 1
load a2 600000 1
load a2 609000 1
chain c3 9
chain c4 0
chain c5 0
exit a2
destroy c3
stat
find a1 609000
status r2
";

pub const TEXT_SHARED_AND_DATA_FORKED_REPLIES: &str = "1 ok a1
2 ok c1
3 ok r1
4 ok c2
5 ok r2
6 ok
7 ok
8 ok a2
9 ok r3
10 ok c3
11 ok
12 ok r4
13 ok
14 ok c4
15 ok
16 ok
17 ok
18 ok c5
19 ok
20 ok
21 ok 7f45
22 ok 7f45
23 ok 44
24 ok 33
25 ok 22
26 chain c3:9+0 w10+2 w20+2*
27 chain c4:0+0 w1+2*
28 chain c5:0+0 w11+2 c2:0+1*
29 ok
30 ok
31 stat live 32 working 10 copies 3
32 ok r2
33 ok a1 600000 10 rw c2 0 unlocked
";

// Every command, over a segment of two pages that begin with 41 and 42.
pub const HOSTILE: &str = "actor
open 1
temp 9
map a1 c1 0 2 10000 rw
map a1 c2 0 9 20000 rw
copy c1 0 c2 0 2
store a1 10000 58
load a1 20000 1
sync c1 0 2
temp 9
copy c2 0 c3 0 9
store a1 21000 59
move c3 0 c2 2 1
load a1 22000 1
split r1 1
lock r1
unlock r1
flush c1 0 2
pageout 4
load a1 10000 1
protect r3 r
status r3
find a1 11000
invalidate c1 0 2
load a1 11000 1
unmap r3
copy c1 1 c3 8 1
chain c3 8
exit a1
destroy c1
chain c3 8
stat
";

pub const HOSTILE_REPLIES: &str = "1 ok a1
2 ok c1
3 ok c2
4 ok r1
5 ok r2
6 ok
7 ok
8 ok 41
9 ok
10 ok c3
11 ok
12 ok
13 ok
14 ok 41
15 ok r3
16 ok
17 ok
18 ok
19 ok
20 ok 58
21 ok
22 ok a1 11000 1 r c1 1 unlocked
23 ok r3
24 ok
25 ok 42
26 ok
27 ok
28 chain c3:8+0 c1:1+1*
29 ok
30 ok
31 chain c3:8+0*
32 stat live 18 working 0 copies 4
";

// Pages of a segment that are saved for a copy, a move, an invalidate and a destroy of its cache,
// after pageouts, so that each save needs a pull. What fails is asked for again: three syncs and
// three destroys suffice where two calls fail. Two pages can be locked in five frames, and not in
// four.
pub const SAVES: &str = "actor
open 1
temp 9
map a1 c1 0 2 10000 rw
map a1 c2 0 9 20000 rw
store a1 20000 61
store a1 21000 62
store a1 22000 63
copy c1 0 c2 4 2
copy c2 0 c1 0 2
chain c1 1
load a1 24000 1
sync c1 0 2
store a1 11000 58
copy c1 1 c2 6 1
pageout 4
move c2 2 c1 1 1
chain c2 6
load a1 26000 1
copy c1 0 c2 7 1
store a1 10001 59
copy c1 0 c2 7 2
chain c2 7
sync c1 0 2
sync c1 0 2
sync c1 0 2
pageout 4
invalidate c1 0 2
stat
load a1 10000 2
copy c1 0 c2 2 2
copy c1 0 c2 4 2
map a1 c2 4 2 30000 r
pageout 4
lock r3
stat
unlock r3
unmap r1
destroy c1
destroy c1
destroy c1
chain c2 4
load a1 22000 2
load a1 23000 1
load a1 24000 2
load a1 25000 1
load a1 26000 1
load a1 27000 2
load a1 28000 1
stat
";

pub const SAVES_REPLIES: &str = "1 ok a1
2 ok c1
3 ok c2
4 ok r1
5 ok r2
6 ok
7 ok
8 ok
9 ok
10 ok
11 chain c1:1+0 c2:1+1*
12 ok 41
13 ok
14 ok
15 ok
16 ok
17 ok
18 chain c2:6+0*
19 ok 58
20 ok
21 ok
22 ok
23 chain c2:7+0 c1:0+1*
24 ok
25 ok
26 ok
27 ok
28 ok
29 stat live 11 working 0 copies 8
30 ok 6159
31 ok
32 ok
33 ok r3
34 ok
35 no LockLimit
36 stat live 11 working 0 copies 8
37 no NotLocked
38 ok
39 ok
40 no NoCache
41 no NoCache
42 chain c2:4+0 c2:2+1*
43 ok 6159
44 ok 63
45 ok 6159
46 ok 63
47 ok 58
48 ok 6159
49 ok 63
50 stat live 9 working 0 copies 10
";
