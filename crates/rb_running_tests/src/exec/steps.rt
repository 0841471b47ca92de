// What steps give: entries, bindings and faults.

/// Each form of step, and blocks of steps; variables that are bound again; and steps that fault, with what was done before
/// them.
pub static LINES: &str = r#"// Each form of step, and blocks of steps.
->
do 1 7 keep 2 8 -> 8
do 1 root do 2 call 8 files root :0 ->
keep 1 %0 keep 2 %1 keep 3 %2 -> 10 t in
let 1 3 4 keep 2 $3 -> 4
let 1 3 call 0 nothing root :0 keep 2 5 -> 5
see 1 3 'name keep 2 $3 see 3 4 false -> name name f
let 1 3 root keep 2 call 3 name call 4 file $3 :1 0 :0 -> a
if 1 true { keep 2 1 } { keep 3 2 } keep 4 3 -> yes(1 ) 3
if 1 false { keep 2 1 } { keep 3 2 } keep 4 3 -> no(2 ) 3
if 1 false { keep 2 1 } { } -> no()
if 1 %1 { if 2 not %1 { } { keep 3 1 } } { } -> yes(no(1 ) )
// Rows of objects, of each primitive type, and none.
each 1 3 call 8 files root :0 { keep 2 call 1 size $3 :0 do 3 call 0 grow $3 :1 1 } -> [(10 )(200 )] ; 11, 201
each 1 3 call 8 files root :0 { if 2 > call 1 size $3 :0 100 { do 3 call 0 grow $3 :1 5 } { } } -> [(no() )(yes() )] ; 10, 205
each 1 3 call 5 numbers root :0 { } -> [()()()]
all 1 3 call 5 numbers root :0 { keep 2 + $3 %0 } -> [(1 11 )(2 12 )(3 13 )]
all 1 3 call 6 truths root :0 { if 2 $3 { } { keep 3 0 } } -> [(t yes() )(f no(0 ) )]
all 1 3 call 7 words root :0 { } -> [(x )(y )]
all 1 3 call 5 none root :0 { keep 2 $3 } keep 3 1 -> [] 1
each 1 0 call 8 files root :0 { all 2 1 call 7 words root :0 { keep 3 + $1 call 3 name $0 :0 } } -> [([(x xa )(y ya )] )([(x xbb )(y ybb )] )]
// An object in a variable is the service's own, and calls see what earlier ones did.
let 1 3 call 4 file root :1 1 do 2 call 0 grow $3 :1 7 keep 3 call 1 size $3 :0 -> 207 ; 10, 207
keep 1 call 3 join call 4 file root :1 0 :3 call 4 file root :1 1 %2 %1 -> bbina
// Variables that are bound again; what a block or a turn binds ends with it.
let 1 7 4 let 2 7 5 keep 3 $7 -> 5
let 1 7 4 let 2 7 + $7 1 keep 3 $7 -> 5
see 1 7 4 if 2 true { see 3 7 5 keep 4 $7 } { } keep 5 $7 -> 4 yes(5 5 ) 4
let 1 7 4 if 2 false { let 3 7 5 } { let 4 7 6 keep 5 $7 } keep 6 $7 -> no(6 ) 4
let 1 7 9 each 2 7 call 5 numbers root :0 { keep 3 $7 let 4 7 0 keep 5 $7 } keep 6 $7 -> [(1 0 )(2 0 )(3 0 )] 9
let 1 7 4 each 2 8 call 5 numbers root :0 { keep 3 $7 let 4 7 $8 keep 5 $7 } keep 6 $7 -> [(4 1 )(4 2 )(4 3 )] 4
each 1 7 call 5 numbers root :0 { each 2 7 call 7 words root :0 { keep 3 $7 } keep 4 $7 } -> [([(x )(y )] 1 )([(x )(y )] 2 )([(x )(y )] 3 )]
let 1 7 root each 2 7 call 8 files $7 :0 { keep 3 call 3 name $7 :0 } keep 4 call 3 word $7 :0 -> [(a )(bb )] w
let 1 4294967295 1 let 2 0 2 keep 3 $4294967295 -> 1
// Steps that fault, and what was done before them. Nothing is done behind.
// A kept value that isn't primitive.
keep 1 7 keep 2 root keep 3 8 -> 7 !12@102#2
keep 1 call 4 file root :1 0 -> !12@101#1
keep 1 call 8 files root :0 -> !12@101#1
keep 1 call 0 nothing root :0 -> !12@101#1
see 1 3 root -> !12@101#1
see 1 3 call 5 numbers root :0 -> !12@101#1
see 1 3 call 0 nothing root :0 -> !12@101#1
// A condition that is no Bool, and what is walked but no rows.
if 1 1 { keep 2 1 } { keep 3 2 } -> !12@101#1
if 1 'true { keep 2 1 } { keep 3 2 } -> !12@101#1
if 1 call 6 truths root :0 { } { } -> !12@101#1
each 1 3 7 { } -> !12@101#1
each 1 3 root { } -> !12@101#1
all 1 3 call 0 nothing root :0 { } -> !12@101#1
// A kept row that isn't primitive: its turn has nothing else.
all 1 3 call 8 files root :0 { keep 2 1 do 3 call 0 grow $3 :1 1 } keep 4 1 -> [(!12@101#1)]
// Faults of a step's expression.
do 1 / 1 0 do 2 call 1 raise call 4 file root :1 0 :1 1 -> !1@1#1
keep 1 5 keep 2 / 1 0 keep 3 6 -> 5 !1@1#2
keep 1 5 let 2 3 / 1 0 keep 3 6 -> 5 !1@1#2
if 1 == 1 / 1 0 { } { } -> !1@2#1
each 1 3 call 8 absent root :0 { } keep 2 1 -> !9@1#1
// Faults within blocks and turns.
if 1 true { if 2 true { keep 3 / 1 0 keep 4 1 } { } keep 5 1 } { } keep 6 1 -> yes(yes(!1@1#3) )
each 1 3 call 8 files root :0 { keep 2 call 3 name $3 :0 do 3 call 0 check $3 :1 100 do 4 call 0 grow $3 :1 1 } keep 5 1 -> [(a )(bb Big!8@3#3)] ; 11, 200
each 1 3 call 8 files root :0 { if 2 == call 1 size $3 :0 10 { do 3 call 0 check $3 :1 9 } { } } keep 4 1 -> [(yes(Big!8@4#3) )]
all 1 3 call 5 numbers root :0 { all 2 4 call 5 numbers root :0 { keep 3 / 6 - 2 $4 } } keep 4 1 -> [(1 [(1 6 )(2 !1@3#3)] )]
all 1 3 call 5 numbers root :0 { if 2 == $3 2 { keep 3 not $3 } { } } keep 4 1 -> [(1 no() )(2 yes(!12@3#3) )]"#;
