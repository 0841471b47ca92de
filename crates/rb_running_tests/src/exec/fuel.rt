// Scripts that run out of fuel, which is 1,000,000 units for each script.
//
// The method `burn` with A and B takes a unit for its call, 1,000 for each of A turns, and one for each of B turns.

/// Turns over two files, `files` having taken a unit, too: where one unit is left, the first turn takes it, and the call in it
/// finds none; where two are left, the second turn finds none.
pub static TURNS: &str =
    r#"let 1 3 call 8 files root :0 do 2 call 0 burn root :2 999 997 each 3 4 $3 { do 4 call 0 grow $4 :1 1 } keep 5 2 -> [(!7@3#4)]
let 1 3 call 8 files root :0 do 2 call 0 burn root :2 999 996 each 3 4 $3 { do 4 call 0 grow $4 :1 1 } keep 5 2 -> [()] !7@103#3; 11, 200"#;

/// A loop in the service's code that takes one unit too many: the fault stands at the remote call. Then a script that takes
/// all units but none too many before its turns, of which none begins.
pub static SPENT: &str = r#"keep 1 1 do 2 call 0 burn root :2 1000 0 keep 3 1 -> 1 !7@1#2
let 1 3 call 8 files root :0 do 2 call 0 burn root :2 999 998 keep 3 1 each 4 4 $3 { keep 5 1 } keep 6 2 -> 1 [] !7@104#4"#;

/// Rows without a turn take no unit, nor do operators and branches; where none is left, the arguments of a call are checked
/// first. A call within a body takes a unit; where none is left, a body that would fault isn't run.
pub static CALLS: &str =
    r#"let 1 3 call 5 none root :0 do 2 call 0 burn root :2 999 998 each 3 4 $3 { } if 4 < 1 2 { } { } do 5 call 3 share root :1 'x -> [] yes() !10@4#5
do 1 call 0 burn root :2 999 997 keep 2 call 1 down root :1 1 do 3 call 3 share root :1 0 -> 0 !7@3#3"#;
