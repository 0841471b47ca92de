// Operators in scripts: their values, and operands of no use to them.

/// Each operator, at its edges too; then operands of a wrong kind, and other faults.
pub static LINES: &str =
    r#"keep 1 not true keep 2 neg 7 keep 3 len 'four keep 4 str -30 -> f -7 4 -30
keep 1 len str -30 keep 2 + str false str true -> 3 falsetrue
keep 1 + 7 2 keep 2 - 7 2 keep 3 * 7 2 keep 4 / 7 2 keep 5 % 7 2 -> 9 5 14 3 1
keep 1 / -7 2 keep 2 % -7 2 keep 3 / 7 -2 keep 4 % 7 -2 -> -3 -1 -3 1
keep 1 + 9223372036854775807 1 keep 2 neg -9223372036854775808 keep 3 * 4611686018427387904 2 -> -9223372036854775808 -9223372036854775808 -9223372036854775808
keep 1 / -9223372036854775808 -1 keep 2 % -9223372036854775808 -1 -> -9223372036854775808 0
keep 1 + 'ab 'c keep 2 + 'ab ' -> abc ab
keep 1 == 7 7 keep 2 != 7 7 keep 3 == 7 8 keep 4 != 7 8 -> t f f t
keep 1 == 'a 'a keep 2 == 'a 'b keep 3 != true false keep 4 == true true -> t f t t
keep 1 < 6 7 keep 2 < 7 7 keep 3 <= 7 7 keep 4 <= 8 7 -> t f t f
keep 1 > 7 6 keep 2 > 7 7 keep 3 >= 7 7 keep 4 >= 7 8 -> t f t f
keep 1 && true true keep 2 && true false keep 3 || false true keep 4 || false false -> t f t f
// The right operand counts only where the left one doesn't decide.
keep 1 && false 7 keep 2 || true root keep 3 && false / 1 0 -> f t f
keep 1 || true == 15 call 1 raise call 4 file root :1 0 :1 5 -> t
keep 1 || false == 15 call 1 raise call 4 file root :1 0 :1 5 -> t ; 15, 200
// Operands of a wrong kind, and other faults.
keep 1 not 7 -> !12@1#1
keep 1 not 'true -> !12@1#1
keep 1 neg true -> !12@1#1
keep 1 len 7 -> !12@1#1
keep 1 len call 8 files root :0 -> !12@1#1
keep 1 str 'a -> !12@1#1
keep 1 str root -> !12@1#1
keep 1 + 1 'a -> !12@1#1
keep 1 + true true -> !12@1#1
keep 1 + call 5 numbers root :0 call 5 numbers root :0 -> !12@1#1
keep 1 - 'a 'a -> !12@1#1
keep 1 * 2 false -> !12@1#1
keep 1 / 'a 0 -> !12@1#1
keep 1 % true 0 -> !12@1#1
keep 1 == 1 true -> !12@1#1
keep 1 == root root -> !12@1#1
keep 1 != 'a 1 -> !12@1#1
let 1 3 call 0 nothing root :0 keep 2 == $3 $3 -> !12@2#2
keep 1 < 'a 'b -> !12@1#1
keep 1 >= true false -> !12@1#1
keep 1 && 1 true -> !12@1#1
keep 1 && true 1 -> !12@1#1
keep 1 || false root -> !12@1#1
keep 1 % 5 0 -> !1@1#1
keep 1 + call 3 page root :0 'x -> !3@1#1
// The left operand comes first, and both before the operator.
keep 1 + / 1 0 call 1 absent root :0 -> !1@2#1
keep 1 + root / 1 0 -> !1@2#1
keep 1 + call 1 raise call 4 file root :1 0 :1 1 * 100 call 1 raise call 4 file root :1 0 :1 1 keep 2 not 1 -> 1211 !12@7#2; 12, 200"#;
