// Remote calls in scripts: what is checked, in its order, and where their faults stand.

/// Scripts, and what each gives.
pub static LINES: &str = r#"// The receiver is no object, and there is no such method.
keep 1 call 1 absent 7 :0 -> !12@1#1
do 1 call 0 absent call 8 files root :0 :0 -> !12@1#1
do 1 call 0 absent call 0 nothing root :0 :0 -> !12@1#1
// The object isn't there, and the argument isn't of the parameter's type.
keep 1 call 1 share %3 :1 'x -> !9@1#1
// There is no such method, and the argument would fit none. A field is no method, nor is one of another class.
keep 1 call 1 absent root :1 'x -> !9@1#1
keep 1 call 8 list root :1 'x -> !9@1#1
keep 1 call 1 size root :1 'x -> !9@1#1
// Another count of arguments, which are of another type, as is the result.
keep 1 call 3 share root :0 -> !10@1#1
keep 1 call 3 share root :2 'x 0 -> !10@1#1
keep 1 call 3 share root :2 0 0 -> !10@1#1
// An argument that isn't of its parameter's type, where the body would fault and the result be of another kind.
keep 1 call 3 share root :1 'x -> !10@1#1
keep 1 call 3 share root :1 true -> !10@1#1
keep 1 call 3 share root :1 root -> !10@1#1
let 1 3 call 0 nothing root :0 keep 2 call 3 share root :1 $3 -> !10@2#2
keep 1 call 1 join call 4 file root :1 0 :3 root 'x true -> !10@1#1
keep 1 call 1 join call 4 file root :1 0 :3 %3 'x true -> !10@1#1
keep 1 call 1 join call 4 file root :1 0 :3 'a 'x true -> !10@1#1
keep 1 call 1 join call 4 file root :1 0 :3 call 4 file root :1 1 0 true -> !10@1#1
keep 1 call 1 join call 4 file root :1 0 :3 call 4 file root :1 1 'x 1 -> !10@1#1
// Rows are no List.
keep 1 call 1 tally root :1 call 5 numbers root :0 -> !10@1#1
// The body faults, and its result would be of another kind; the result is of another kind, and the body's effects stay.
keep 1 call 3 share root :1 0 -> !1@1#1
keep 1 call 3 share root :1 2 -> !11@1#1
do 1 call 0 raise call 4 file root :1 0 :1 5 -> !11@1#1; 15, 200
// Receiver and arguments are evaluated before all checks, from left to right.
keep 1 call 1 absent 7 :1 / 1 0 -> !1@2#1
do 1 call 0 grow call 4 absent root :0 :1 / 1 0 -> !9@2#1
keep 1 call 3 join call 4 file root :1 0 :3 call 4 file root :1 7 / 1 0 true -> !2@3#1
do 1 call 1 absent root :1 call 1 raise call 4 file root :1 0 :1 5 -> !9@1#1; 15, 200
// A fault in a call within the body stands at the remote call.
keep 1 5 keep 2 call 3 examine root :1 1 -> 5 Big!8@1#2; 15, 200
keep 1 call 3 examine root :1 2 -> !2@1#1; 15, 200
keep 1 call 3 examine root :1 0 -> good ; 15, 200
keep 1 + 1 call 1 share root :1 - 2 2 -> !1@2#1
// 32 calls are active at most; the remote call is the first.
keep 1 call 1 down root :1 31 -> 0
keep 1 call 1 down root :1 32 -> !6@1#1
// A text of 4,096 bytes is one.
keep 1 len call 3 page root :0 -> 4096
keep 1 call 1 share root :1 %0 keep 2 call 1 share root :1 neg %0 -> 6 -6"#;
