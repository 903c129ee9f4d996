// Segments that are opened and closed again, with the whole output, where so many caches are kept.

// A cache is kept, and found again, where one may be kept; where none may, it is made anew.
pub const AGAIN: &str = "open 1
open 1
actor
map a1 c1 0 1 10000 rw
store a1 10000 58
close 1
close 1
close 1
load a1 10000 1
unmap r1
temp 1
copy c1 0 c2 0 1
open 1
copy c1 0 c2 0 1
";

pub const KEPT: &str = "1 ok c1
2 ok c1
3 ok a1
4 ok r1
5 ok
6 ok
7 ok
8 no NotOpen
9 ok 58
10 ok
11 ok c2
12 no NoCache
13 ok c1
14 ok
";

pub const NOT_KEPT: &str = "1 ok c1
2 ok c1
3 ok a1
4 ok r1
5 ok
6 ok
7 ok
8 no NotOpen
9 ok 58
10 ok
11 ok c2
12 no NoCache
13 ok c3
14 no NoCache
";

// Where the push fails by which the cache would go at line 6, it stays, and goes at line 8.
pub const GIVEN_UP_LATER: &str = "open 1
actor
map a1 c1 0 1 10000 rw
store a1 10000 58
close 1
unmap r1
open 1
close 1
open 1
destroy c2
";

pub const GIVEN_UP_LATER_REPLIES: &str = "1 ok c1
2 ok a1
3 ok r1
4 ok
5 ok
6 ok
7 ok c1
8 ok
9 ok c2
10 no BadLine
";
